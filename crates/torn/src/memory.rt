// A memory whose next write can be cut, and what is read again.
ghost use Rattle.std.specs.Prelude.{◌≡◌, true, false, [], IfOk, None};
ghost use Rattle.torn.specs.Torn.{Restarts, entries, is_junk, works};
ghost use Rattle.std.proofs.Common.{rules};

use super::device::Device;
use held::{Cut, Held};
use parts::{Clock, NotWritten};
use service_rules::Memory;
use std::alloc::{AllocError, Global};

// A memory, whose writes are of digests.
pub type Torn = Device<Held, u128>;

impl Torn {
    // A memory of nothing, on a device that writes, with no cut ahead.
    pub fn new(heap: Global) -> Result<Torn, AllocError>
        ensures { IfOk result (λ t. (entries t ≡ []) × (is_junk t ≡ false) × (works t ≡ true) × (t.next ≡ None)) }
    {
        let held = Held::new(heap)?;
        Ok(Device::whole(held))
    }

    // What is read again after a crash at this tick.
    pub fn restart(&mut self, clock: Clock)
        ensures { Restarts clock.tick clock.lag self.old self.new }
    {
        let cut = self.cut.take().unwrap_or(Cut::Old);
        self.held.crash(cut, clock);
    }
}

impl Memory for Torn {
    ghost kept = { λ t. entries t };

    ghost junk = { λ t. is_junk t };

    ghost writes = { λ t. works t };

    ghost keeps = { λ t u. (t.writes ≡ u.writes) × (t.held.writes ≡ u.held.writes) };

    ghost same = { Prim.search rules };

    fn stands(&self, digest: u128, clock: Clock) -> bool {
        self.held.stands(digest, clock)
    }

    fn live(&self, clock: Clock) -> usize {
        self.held.live(clock)
    }

    fn highest(&self) -> u64 {
        self.held.highest()
    }

    fn junk(&self) -> bool {
        self.held.junk()
    }

    fn record(&mut self, digest: u128, clock: Clock) -> Result<(), NotWritten> {
        self.begin(digest)?;
        self.held.record(digest, clock)
    }
}
