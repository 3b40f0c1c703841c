// What holds of the accounts file: each theorem is a clause of a function here.
#![tactic(auto)]

ghost use Rattle.account_laws.specs.Codec.{Back, ByValue};
ghost use Rattle.account_laws.specs.Falls.{Answering, Falling, Happening, Rising, Starting, Staying};

// What is written of the accounts is read back, and any other payload is read by value.
pub fn codec_laws()
    ensures back { Back }
    ensures value { ByValue }
{}

// Over any row of openings, closings and falls, with any outcome of each write: states only rise, an account once closed stays closed, no closing that was answered is undone, and the house starts again.
pub fn fall_laws()
    ensures rising { Rising }
    ensures staying { Staying }
    ensures answering { Answering }
    ensures starting { Starting }
    ensures happening { Happening }
    ensures falling { Falling }
{}
