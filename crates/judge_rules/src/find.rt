// The oldest line that fits a deed.
ghost use Rattle.judge_rules.specs.Judge.{act_of, fits, plain};
ghost use Rattle.std.specs.List.{position};
ghost use Rattle.std.specs.Prelude.{◌≡◌};

use super::record::{Done, Line};
use parts::Clock;

// Does a line account for a deed?
fn is_fit(lag: u64, done: &Done, line: &Line) -> bool
    ensures { result ≡ fits lag (act_of done.now) (plain line.now) }
{
    let clock = Clock { tick: done.at, lag };
    let wanted = &line.wanted;
    !line.spent
        && wanted.reader == done.reader
        && wanted.service == done.service
        && clock.is_lately(wanted.at)
        && wanted.what.words() == done.what.words()
}

// The index of the oldest that does.
// An index and no line, since the verdict tells the place.
pub(super) fn find(lag: u64, done: &Done, lines: &[Line]) -> Option<usize>
    ensures { result ≡ position (λ l. fits lag (act_of done.now) (plain l)) lines.now }
{
    lines.iter().position(|line| is_fit(lag, done, line))
}
