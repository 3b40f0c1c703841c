// The judge of the town as the town calls him, and what his verdicts are worth.
#![tactic(auto)]

ghost use Rattle.judge_rules.specs.Judge.{act_of, judged, seen, verdict};
ghost use Rattle.judge.specs.Example.{Met, Worked};
ghost use Rattle.judge.specs.Hearing.{KnowingAll, NamedFirst, NeverUnasked, NoneUnasked, Settled};
ghost use Rattle.judge.specs.Meaning.{LinesOnce, Meaning};
ghost use Rattle.judge.specs.Promise.{Meant, WasAsked};
ghost use Rattle.rows.specs.Row.{AskedOnce, InEvery};
ghost use Rattle.std.specs.Prelude.{◌≡◌};

use judge_rules::{Done, Judge, Verdict};

// Judges a deed; the oldest line that accounts for it is spent.
// The verdict means what it says; where what was heard is a row that can happen, it is never that the deed was not asked.
pub fn judge(by: &mut Judge, done: &Done) -> Verdict
    ensures answer { result ≡ verdict (seen by.old) (act_of done.now) }
    ensures after { seen by.new ≡ judged (seen by.old) (act_of done.now) }
    ensures meant { Meant (seen by.old) (act_of done.now) result }
    ensures asked { WasAsked (seen by.old) (act_of done.now) result }
    ensures lines_once { LinesOnce }
    ensures asked_once { InEvery AskedOnce }
    ensures never_unasked { InEvery NeverUnasked }
{
    by.judge(done)
}

// The same of hearings in order, wherever they come from.
pub fn settles()
    ensures settled { InEvery Settled }
    ensures meaning { InEvery Meaning }
    ensures none_unasked { InEvery NoneUnasked }
{}

// What this rests on can be met, and each verdict can be said.
pub fn shows()
    ensures knowing_all { InEvery KnowingAll }
    ensures named_first { InEvery NamedFirst }
    ensures met { Met }
    ensures worked { Worked }
{}
