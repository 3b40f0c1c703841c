// A reader's box by value.
use super::line::{Held, Pending};
use super::table::Table;
use parts::Key;

// A box: whose it is, the own key, the tick, how many lines had no fault, how many tickets were taken, and three tables.
#[derive(Drop)]
pub struct Chest<T> {
    pub number: u16,
    pub key: Key,
    pub now: u64,
    pub lines: u64,
    pub taken: u64,
    pub(crate) logins: Table<Pending>,
    pub(crate) tickets: Table<Held<T>>,
    pub(crate) askings: Table<Pending>,
}
