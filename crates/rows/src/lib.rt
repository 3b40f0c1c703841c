// Rows of events: whatever house, boxes and services do by their decisions is a run of the model.
// Nothing runs here: each function's contract is a theorem over lists of what happened, stated with the very definitions
// that the contracts of the decisions cite.
#![tactic(auto)]

ghost use Rattle.rows.specs.Faults.{WorkedFaults};
ghost use Rattle.rows.specs.Happens.{CanHappen};
ghost use Rattle.rows.specs.Name.{DrawsNamed};
ghost use Rattle.rows.specs.Row.{AskedOnce, Fresh, InEvery, IsRun, Kept, LoggedIn, Over};
ghost use Rattle.rows.specs.Served.{Served};

// Whatever a service does was asked, by that reader, of that service, in those words, once and just now.
pub fn asked_once()
    ensures { InEvery AskedOnce }
{}

// A session key stays unknown while none of the three keys is stolen.
pub fn kept()
    ensures { InEvery Kept }
{}

// A closed account is over one life later.
pub fn over()
    ensures { InEvery Over }
{}

// A ticket for the house is given only upon a login of that reader, just now; and a letter brings a key made for just this.
pub fn fresh()
    ensures logins { InEvery LoggedIn }
    ensures letters { InEvery Fresh }
{}

// Every row that can happen is a run of the model.
pub fn is_run()
    ensures { InEvery IsRun }
{}

// Draws that are apart have names of their own.
pub fn draws_named()
    ensures { DrawsNamed }
{}

// From every row whoever is ready is served by six acts.
pub fn served()
    ensures { InEvery Served }
{}

// What the promises rest on can be met: one row that meets all of it.
pub fn can_happen()
    ensures { CanHappen }
{}

// Worked cases with their faults by number: each row of the table is answered as it says.
pub fn worked_faults()
    ensures { WorkedFaults }
{}
