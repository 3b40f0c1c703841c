// Rows of calls with words of bytes: whatever house, boxes and services make of whatever words are brought to them, under the
// premises of specs/Premise.antt, is a row of opened contents, and so a run of the model.
// Nothing runs here: each function's contract is a theorem over lists of calls, stated with the very definitions that the contracts
// of the sides cite; for every fair way to lock, and for the locks of this code.
#![tactic(auto)]

ghost use Rattle.byte_rows.specs.Happens.{CanHappen};
ghost use Rattle.byte_rows.specs.Premise.{Fair};
ghost use Rattle.byte_rows.specs.Row.{AskedOnce, Fresh, InEvery, InOurs, IsRow, Kept, LoggedIn, Over};
ghost use Rattle.byte_rows.specs.Served.{Opens, ServedByAll, ServedByOurs};
ghost use Rattle.locked.specs.Locked.{ours};

// Whatever a service does was asked, by that reader, of that service, in those words, once and just now.
pub fn asked_once()
    ensures every { InEvery AskedOnce }
    ensures code { InOurs AskedOnce }
{}

// A session key stays unknown to whoever has all that was sent and stolen, while none of the three keys is stolen.
pub fn kept()
    ensures every { InEvery Kept }
    ensures code { InOurs Kept }
{}

// A closed account is over one life later.
pub fn over()
    ensures every { InEvery Over }
    ensures code { InOurs Over }
{}

// A ticket for the house is given only upon a login of that reader, just now.
pub fn logged_in()
    ensures every { InEvery LoggedIn }
    ensures code { InOurs LoggedIn }
{}

// A letter brings a key made for just this login or asking.
pub fn fresh()
    ensures every { InEvery Fresh }
    ensures code { InOurs Fresh }
{}

// Every row of calls over bytes is a row of acts on what was opened, with the same outcome, and so a run of the model.
pub fn is_row()
    ensures every { InEvery IsRow }
    ensures code { InOurs IsRow }
{}

// From every row whoever is ready is served by six calls with the words that were sent.
pub fn served()
    ensures every { ServedByAll }
    ensures code { ServedByOurs }
{}

// The locks of this code are fair: the drawn bytes stand first, and a lock fits into a word; and what was locked opens again.
pub fn locks_fair()
    ensures fair { Fair ours }
    ensures opens { Opens ours }
{}

// What the promises rest on can be met: one row over bytes that meets all of it.
pub fn can_happen()
    ensures { CanHappen }
{}
