// Tables of 16, the newest first, and what is looked for in them.
ghost use Rattle.std.specs.Prelude.{◌≡◌, ◌≤◌, ◌==◌, List, [], IfOk, vec_capacity, reverse};
ghost use Rattle.box_rules.specs.Table.{matches, oldest, put as with, without};
ghost use Rattle.std.specs.List.{find};
ghost use Rattle.std.specs.Option.{option_map};

use super::line::{Held, Pending, Sought};
use parts::Number;
use std::alloc::{AllocError, Global};
use std::marker::Model;

// How many a table holds.
const ROOM: usize = 16;

// A table of 16 rows, the newest first; the oldest goes. So few are searched from the front, and need no map.
#[derive(Drop)]
pub struct Table<X> {
    rows: Vec<X>,
}

impl<X> Model for Table<X> {
    ghost Value = { List X };

    ghost view = { λ t. t.rows.items };

    ghost invariant = { λ t. 16 ≤ vec_capacity t.rows };
}

impl<X> Table<X> {
    // A table with no rows yet.
    pub(crate) fn new(heap: Global) -> Result<Table<X>, AllocError>
        ensures { IfOk result (λ t. t ≡ []) }
    {
        let rows = Vec::with_capacity(heap, ROOM)?;
        Ok(Table { rows })
    }

    // Its rows, the newest first.
    pub(crate) fn rows(&self) -> &[X]
        ensures { result.now ≡ self.now }
    {
        self.rows.as_slice()
    }
}

impl<X: Drop> Table<X> {
    // Puts one in; the oldest goes.
    pub(crate) fn put(&mut self, row: X)
        ensures { self.new ≡ with row self.old }
    {
        self.rows.truncate(ROOM - 1);
        let _ = self.rows.insert(0, row);
    }
}

impl<T> Table<Held<T>> {
    // The ticket with this id.
    pub(crate) fn held(&self, id: u64) -> Option<&Held<T>>
        ensures { option_map (λ h. h.now) result ≡ find (λ h. h.pass.id == id) self.now }
    {
        self.rows().iter().find(|held| held.pass.id == id)
    }
}

// The last of those that are looked for.
fn last_match(rows: &[Pending], sought: Sought) -> Option<Pending>
    ensures { result ≡ find (matches sought) (reverse rows.now) }
{
    rows.iter().rev().copied().find(|row| sought.matches(row))
}

impl Table<Pending> {
    // Takes out what has this number.
    pub(crate) fn remove(&mut self, number: Number)
        ensures { self.new ≡ without number self.old }
    {
        self.rows.retain(|pending| pending.number != number);
    }

    // The oldest of those that are looked for.
    pub(crate) fn oldest(&self, sought: Sought) -> Option<Pending>
        ensures { result ≡ oldest sought self.now }
    {
        last_match(self.rows(), sought)
    }
}

impl Sought {
    // Is this the one that is looked for?
    fn matches(self, pending: &Pending) -> bool
        ensures { result ≡ matches self pending.now }
    {
        match self {
            Sought::Login(number) => pending.number == number,
            Sought::AtHouse(key, number, service) => {
                pending.asks == 0
                    && pending.key == key
                    && pending.number == number
                    && pending.line.service == service
            }
            Sought::AtService(key, number) => {
                pending.asks != 0 && pending.key == key && pending.number == number
            }
        }
    }
}
