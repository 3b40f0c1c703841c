// What a reader's box does: with a line of its reader, a letter, a receipt and a refusal.
#![tactic(auto)]

mod answer;
mod ask;
mod chest;
mod keys;
mod letter;
mod line;
mod start;
mod table;
mod want;

pub use answer::{Answer, Got, NotStarted};
pub use chest::Chest;
pub use line::{Held, Line, Pass, Pending, Sought, Under};
