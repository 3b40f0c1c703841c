// Nothing that was done is forgotten by a crash: the theorem over recordings, ticks and crashes.
#![tactic(auto)]

ghost use Rattle.falls.specs.Falls.{Remembered};

// Whatever was recorded, and however writes and crashes ended: what was done is refused, or the side waits, as long as its asking could be of lately.
pub fn remembers()
    ensures { Remembered }
{}
