// What a start finds after writes, whole and cut: each theorem is a clause here.
ghost use Rattle.halves.specs.Laws.{Failing, Recovering, Starting, Telling, Writing};

// A payload written whole is what a start finds; after a write that was cut it finds the old or the new one, and junk is told.
pub fn laws()
    ensures starting { Starting }
    ensures telling { Telling }
    ensures writing { Writing }
    ensures failing { Failing }
    ensures recovering { Recovering }
{}
