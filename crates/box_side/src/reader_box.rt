// A reader's box, and how it starts and goes on in time.
ghost use Rattle.box_side.specs.Step.{Starts, seen};
ghost use Rattle.box_rules.specs.Chest.{box_on_tick};
ghost use Rattle.parts.specs.Tick.{clock};
ghost use Rattle.std.specs.Prelude.{◌≡◌};

use crate::ticket::TicketBytes;
use box_rules::{Chest, NotStarted};
use parts::{Drawn, Key, Ticked};
use std::alloc::Global;

// A box: what it holds, and the drawn bytes that it has left.
#[derive(Drop)]
pub struct ReaderBox<D> {
    pub chest: Chest<TicketBytes>,
    pub drawn: D,
}

// Why there is no box, with the drawn bytes as they were: it is no enum alone, since the bytes must come back.
#[derive(Drop)]
pub struct NotMade<D> {
    pub why: NotStarted,
    pub drawn: D,
}

impl<D: Drawn> ReaderBox<D> {
    // Starts a box that holds nothing, with drawn bytes to use up. The `match` stays, since both arms take the bytes.
    pub fn start(
        heap: Global,
        number: u16,
        tick: u64,
        key: Key,
        drawn: D,
    ) -> Result<ReaderBox<D>, NotMade<D>>
        ensures { Starts D.left number tick key drawn result }
    {
        match Chest::start(heap, number, tick, key) {
            Ok(chest) => Ok(ReaderBox { chest, drawn }),
            Err(why) => Err(NotMade { why, drawn }),
        }
    }

    // Tells it the tick.
    pub fn tick(&mut self, to: u64) -> Ticked
        ensures answer { result ≡ clock self.old.chest.now to }
        ensures after { seen self.new.chest (D.left self.new.drawn) ≡ box_on_tick (seen self.old.chest (D.left self.old.drawn)) to }
    {
        self.chest.tick(to)
    }
}
