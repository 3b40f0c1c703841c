// What the house decides: logins, askings for tickets, and the opening and closing of accounts.
#![tactic(auto)]

mod accounts;
mod ask;
mod change;
mod fresh;
mod give;
mod house;
mod known;
mod log_in;
mod reply;
mod start;

pub use accounts::Accounts;
pub use change::{Changed, close_account, open_account};
pub use give::Given;
pub use house::House;
pub use known::{is_closed, is_unknown, own_key};
pub use reply::{Grant, Granted};
