// Starting a box, which is empty after a crash too; going on in time; the ticket of an id.
ghost use Rattle.std.specs.Prelude.{◌≡◌, ℕ, List};
ghost use Rattle.box_rules.specs.Chest.{Starts, box_on_tick, boxed, ticket_of};
ghost use Rattle.parts.specs.Tick.{clock};
ghost use Rattle.std.specs.Option.{option_map};

use super::answer::NotStarted;
use super::chest::Chest;
use super::table::Table;
use parts::{Fault, Key, Ticked, told};
use std::alloc::Global;

impl<T: Drop> Chest<T> {
    // Starts a box that holds nothing.
    // Three settings by themselves: they are told once, at the start.
    pub fn start(heap: Global, number: u16, tick: u64, key: Key) -> Result<Chest<T>, NotStarted>
        ensures { Starts number tick key result }
    {
        if number == 0 || (number > 1023 || tick >= 1 << 63) {
            return Err(NotStarted::Wrong(Fault::OutOfRange));
        }
        Ok(Chest {
            number,
            key,
            now: tick,
            lines: 0,
            taken: 0,
            logins: Table::new(heap)?,
            tickets: Table::new(heap)?,
            askings: Table::new(heap)?,
        })
    }

    // Tells it the tick.
    pub fn tick(&mut self, to: u64) -> Ticked
        ensures answer { result ≡ clock self.entry.now.now to }
        ensures after { (bs : List ℕ) → boxed self.exit.now bs ≡ box_on_tick (boxed self.entry.now bs) to }
    {
        let ticked = told(self.now, to);
        if ticked == Ticked::On {
            self.now = to;
        }
        ticked
    }

    // The ticket with this id.
    pub fn ticket(&self, id: u64) -> Option<&T>
        ensures { option_map (λ r. r.now) result ≡ ticket_of id self.entry.now.tickets }
    {
        self.tickets.held(id).map(|held| &held.ticket)
    }
}
