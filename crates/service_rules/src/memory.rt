// The memory against repeating, with its device, behind a trait: whoever stores it puts it beneath.
ghost use Rattle.std.specs.Prelude.{◌≡◌, ◌<◌, Bool, not, ◌&&◌, List, length, is_ok, if◌then◌else◌};
ghost use Rattle.parts.specs.declared.account.Entry.{Entry};
ghost use Rattle.service_rules.specs.Memory.{highest, live_of, recorded, stands};

use parts::{Clock, Entry, NotWritten};

// How many things can be remembered.
pub const ROOM: usize = 8192;

// What was done, written to a device before it is done.
pub trait Memory {
    // what is remembered, the oldest first
    ghost kept: { Self → List Entry };

    // whether what a cut write left on the device can't be read
    ghost junk: { Self → Bool };

    // whether the device wrote, when it was last told to
    ghost writes: { Self → Bool };

    // how a memory may differ from what it was, besides what is kept and junk
    ghost keeps: { Self → Self → Type 0 };

    // Was it done, and is that still remembered?
    fn stands(&self, digest: u128, clock: Clock) -> bool
        ensures { result ≡ stands digest (live_of clock.tick clock.lag (kept self.now)) };

    // How many things are still remembered?
    fn live(&self, clock: Clock) -> usize
        ensures { result ≡ length (live_of clock.tick clock.lag (kept self.now)) };

    // The highest tick of those remembered, 0 if there is none.
    // No Option: a start asks only that no tick remembered is above its own.
    fn highest(&self) -> u64
        ensures { result ≡ highest (kept self.now) };

    // Is something on the device junk?
    fn junk(&self) -> bool
        ensures { result ≡ junk self.now };

    // Forgets what is old, adds this one, and writes it all; if the device does not write, all is as it was.
    fn record(&mut self, digest: u128, clock: Clock) -> Result<(), NotWritten>
        requires { length (live_of clock.tick clock.lag (kept self.old)) < 8192 }
        ensures wrote { is_ok result ≡ writes self.new }
        ensures kept { kept self.new ≡ (if is_ok result then recorded clock.tick clock.lag digest (kept self.old) else kept self.old) }
        ensures junk { junk self.new ≡ (not (is_ok result) && junk self.old) }
        ensures keeps { keeps self.old self.new };

    ghost same: { (m : Self) → keeps m m };
}
