// Which keys are tried on a letter and on a receipt, in which order.
ghost use Rattle.box_rules.specs.Chest.{boxed};
ghost use Rattle.box_rules.specs.Keys.{holds, is_stray, letter_keys, receipt_keys};
ghost use Rattle.std.specs.Prelude.{◌≡◌, ℕ, List, IfOk};

use super::chest::Chest;
use super::line::{Held, Pending};
use parts::Key;
use std::alloc::{AllocError, Global};
use std::iter::once;

// Is a house ticket with this key held?
// This and the one below go over the rows alone: nothing else of the box says it.
fn is_held<T>(tickets: &[Held<T>], key: Key) -> bool
    ensures { result ≡ holds key tickets.now }
{
    tickets
        .iter()
        .any(|held| held.pass.service == 0 && held.pass.key == key)
}

// Is this an asking for the house whose ticket is held no more?
fn is_stray<T>(tickets: &[Held<T>], asking: &Pending) -> bool
    ensures { result ≡ is_stray tickets.now asking.now }
{
    asking.asks == 0 && !is_held(tickets, asking.key)
}

impl<T> Chest<T> {
    // The keys that are tried on a letter, in this order; the first that opens decides.
    pub fn letter_keys(&self, heap: Global) -> Result<Vec<Key>, AllocError>
        ensures { IfOk result (λ v. (bs : List ℕ) → v.items ≡ letter_keys (boxed self.entry.now bs)) }
    {
        let tickets = self.tickets.rows();
        let house = tickets
            .iter()
            .rev()
            .filter(|held| held.pass.service == 0)
            .map(|held| held.pass.key);
        let askings = self.askings.rows();
        let stray = askings
            .iter()
            .rev()
            .filter(|asking| is_stray(tickets, asking))
            .map(|asking| asking.key);
        once(self.key).chain(house).chain(stray).collect(heap)
    }

    // The keys that are tried on a receipt, in this order; the first that opens decides.
    pub fn receipt_keys(&self, heap: Global) -> Result<Vec<Key>, AllocError>
        ensures { IfOk result (λ v. v.items ≡ receipt_keys self.entry.now.askings) }
    {
        let askings = self.askings.rows();
        askings
            .iter()
            .rev()
            .filter(|asking| asking.asks != 0)
            .map(|asking| asking.key)
            .collect(heap)
    }
}
