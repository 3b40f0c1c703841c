// Tests on ticks; each works at every tick, so one that came from outside is never added to.
ghost use Rattle.parts.specs.Tick.{clock, lately, live, over};
ghost use Rattle.std.specs.Prelude.{◌≡◌};

// The tick now, and how far back a tick is still of lately.
#[derive(Clone, Copy)]
pub struct Clock {
    pub tick: u64,
    pub lag: u64,
}

impl Clock {
    // Is a tick of lately: not above now, and at most lag below it?
    pub fn is_lately(self, at: u64) -> bool
        ensures { result ≡ lately self.tick self.lag at }
    {
        at <= self.tick && self.tick - at <= self.lag
    }

    // Is what was done at this tick still to be remembered?
    pub fn is_live(self, at: u64) -> bool
        ensures { result ≡ live self.tick self.lag at }
    {
        self.tick.saturating_sub(at) <= self.lag
    }
}

// What a side does when it is told a tick: it goes on to it, it refuses to go back, or it stops for good.
// It is no Result: a side answers with one of the three, and none of them is handed on as an error.
#[derive(Clone, Copy, PartialEq, Eq)]
pub enum Ticked {
    On,
    Back,
    Stopped,
}

// Is a ticket over? It is still good at its until.
pub fn is_over(now: u64, until: u64) -> bool
    ensures { result ≡ over now until }
{
    until < now
}

// What a side at tick `now` does when it is told the tick `to`.
pub fn told(now: u64, to: u64) -> Ticked
    ensures { result ≡ clock now to }
{
    if to >= 1 << 63 {
        Ticked::Stopped
    } else if to < now {
        Ticked::Back
    } else {
        Ticked::On
    }
}
