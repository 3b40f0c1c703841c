// The theorem that stands above the definitions, the contract of a function.
ghost use Rattle.script.specs.Laws.{FaultsChangeNothing, StaysOrderly, TimeGoesOn, TownsAreOrderly};

// Whatever its script says, a town is orderly; a line that is refused changes nothing, and time does not go back.
pub fn towns_are_orderly()
    ensures scripts { TownsAreOrderly }
    ensures lines { StaysOrderly }
    ensures refusals { FaultsChangeNothing }
    ensures time { TimeGoesOn }
{}
