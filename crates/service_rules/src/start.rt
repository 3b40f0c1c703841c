// Starting, after a crash as well as for the first time, and going on in time.
ghost use Rattle.parts.specs.Tick.{clock};
ghost use Rattle.service_rules.specs.Side.{begun, clock_of, on_tick, started, waiting};
ghost use Rattle.std.specs.Prelude.{◌≡◌};

use super::decide::is_nobody;
use super::memory::Memory;
use super::side::Side;
use parts::{Clock, Fault, Ticked, told};

impl Side {
    // Starts a side at a tick with what is read of its memory. If something there is junk it waits for lag + 1 ticks.
    // Here and in `start` a side's settings come by themselves; `start` adds the test of the number alone.
    pub fn begin<M: Memory>(number: u16, lag: u64, tick: u64, memory: &M) -> Result<Side, Fault>
        ensures { result ≡ begun number lag tick (M.kept memory.now) (M.junk memory.now) }
    {
        if lag > 600 || tick >= 1 << 63 || tick < memory.highest() {
            return Err(Fault::OutOfRange);
        }
        let wake = if memory.junk() { tick + lag + 1 } else { 0 };
        Ok(Side {
            number,
            lag,
            now: tick,
            wake,
        })
    }

    // Starts a service.
    pub fn start<M: Memory>(number: u16, lag: u64, tick: u64, memory: &M) -> Result<Side, Fault>
        ensures { result ≡ started number lag tick (M.kept memory.now) (M.junk memory.now) }
    {
        if is_nobody(number) {
            return Err(Fault::OutOfRange);
        }
        Side::begin(number, lag, tick, memory)
    }

    // Tells it the tick.
    pub fn tick(&mut self, to: u64) -> Ticked
        ensures answer { result ≡ clock self.old.now to }
        ensures after { self.new ≡ on_tick self.old to }
    {
        let ticked = told(self.now, to);
        if ticked == Ticked::On {
            self.now = to;
        }
        ticked
    }

    // The tick now, and how far back a tick is of lately.
    pub fn clock(&self) -> Clock
        ensures { result ≡ clock_of self.entry.now }
    {
        Clock {
            tick: self.now,
            lag: self.lag,
        }
    }

    // Does it do nothing now?
    pub fn waits(&self) -> bool
        ensures { result ≡ waiting self.entry.now }
    {
        self.now < self.wake
    }
}
