// How a memory that is held by value remembers, and what a crash leaves of it.
ghost use Rattle.parts.specs.declared.account.Entry.{Entry};
ghost use Rattle.held.specs.Crash.{rejunk, reread};
ghost use Rattle.service_rules.specs.Memory.{live_of, recorded};
ghost use Rattle.std.specs.Prelude.{◌≡◌, ◌<◌, true, false, [], length, IfOk};
ghost use Rattle.std.proofs.Common.{rules};

use super::Held;
use crate::cut::Cut;
use parts::{Clock, NotWritten};
use service_rules::{Memory, ROOM, highest_in, live_in, remember, stands_in};
use std::alloc::{AllocError, Global};

impl Held {
    // A memory of nothing, on a device that writes.
    pub fn new(heap: Global) -> Result<Held, AllocError>
        ensures { IfOk result (λ h. (h.entries.items ≡ []) × (h.junk ≡ false) × (h.writes ≡ true)) }
    {
        let entries = Vec::with_capacity(heap, ROOM)?;
        Ok(Held {
            entries,
            junk: false,
            writes: true,
        })
    }

    // The device writes from now on, or does not.
    // A setter of one field; the accounts have one too, for their own device.
    pub fn set_writes(&mut self, writes: bool)
        ensures writes { self.new.writes ≡ writes }
        ensures kept { self.new.entries.items ≡ self.old.entries.items }
        ensures junk { self.new.junk ≡ self.old.junk }
    {
        self.writes = writes;
    }

    // Writes one more, with those that are not forgotten yet.
    fn write(&mut self, digest: u128, clock: Clock)
        requires { length (live_of clock.tick clock.lag self.old.entries.items) < 8192 }
        ensures kept { self.new.entries.items ≡ recorded clock.tick clock.lag digest self.old.entries.items }
        ensures junk { self.new.junk ≡ false }
        ensures writes { self.new.writes ≡ self.old.writes }
    {
        remember(&mut self.entries, digest, clock);
        self.junk = false;
    }

    // What is read again after a crash, by how the write that it cut has ended.
    pub fn crash(&mut self, cut: Cut<u128>, clock: Clock)
        ensures kept { self.new.entries.items ≡ reread clock.tick clock.lag cut self.old.entries.items }
        ensures junk { self.new.junk ≡ rejunk clock.tick clock.lag cut self.old.entries.items self.old.junk }
        ensures writes { self.new.writes ≡ self.old.writes }
    {
        match cut {
            Cut::Old => {}
            Cut::New(digest) => {
                if live_in(&self.entries, clock) < ROOM {
                    self.write(digest, clock);
                }
            }
            Cut::Junk => self.junk = true,
        }
    }
}

impl Memory for Held {
    ghost kept = { λ h. h.entries.items };

    ghost junk = { λ h. h.junk };

    ghost writes = { λ h. h.writes };

    ghost keeps = { λ h i. h.writes ≡ i.writes };

    ghost same = { Prim.search rules };

    fn stands(&self, digest: u128, clock: Clock) -> bool {
        stands_in(&self.entries, digest, clock)
    }

    fn live(&self, clock: Clock) -> usize {
        live_in(&self.entries, clock)
    }

    fn highest(&self) -> u64 {
        highest_in(&self.entries)
    }

    fn junk(&self) -> bool {
        self.junk
    }

    fn record(&mut self, digest: u128, clock: Clock) -> Result<(), NotWritten> {
        if !self.writes {
            return Err(NotWritten);
        }
        self.write(digest, clock);
        Ok(())
    }
}
