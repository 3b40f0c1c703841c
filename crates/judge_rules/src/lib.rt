// What the judge of the town decides: whether a deed was asked, by the lines and the thefts so far.
#![tactic(auto)]

mod find;
mod judge;
mod note;
mod record;
mod stolen;
mod total;

pub use record::{Done, Judge, Line, Principal, Verdict};
pub use total::Total;
