// The town that plays the first form of a script: the lines that open a town, name who there is and tell the tick.
#![tactic(auto)]

pub mod laws;
pub mod town;
