// The house's accounts in a file of two halves: no closing that was answered is ever undone.
#![tactic(auto)]

mod entry;
mod file;
mod payload;
mod rise;

pub use file::{AccountFile, HALF};
pub use payload::Payload;
