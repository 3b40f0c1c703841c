// What stands in tickets, letters, logins, askings and receipts, by value; the faults and the conditions that give them.
#![tactic(auto)]

mod account;
mod condition;
mod drawn;
mod fault;
mod lock;
mod tick;
mod word;
mod written;

pub use account::{Account, Entry};
pub use condition::{Condition, check, lowest};
pub use drawn::{Drawn, take};
pub use fault::{Class, Fault};
pub use lock::Lock;
pub use tick::{Clock, Ticked, is_over, told};
pub use word::{Asking, Key, Letter, Login, Number, Receipt, Salt, Ticket, What};
pub use written::NotWritten;
