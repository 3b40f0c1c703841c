// What stands inside the five kinds of locks, in bytes: read to its exact end, and written.
#![tactic(auto)]

mod asking;
mod field;
mod inside;
mod letter;
mod login;
mod receipt;
mod ticket;

pub use asking::{Asking, read_asking, write_asking};
pub use field::{array_at, put};
pub use inside::Inside;
pub use letter::write_letter;
pub use login::write_login;
pub use receipt::write_receipt;
pub use ticket::write_ticket;
