// A line of the reader.
ghost use Rattle.box_rules.specs.Chest.{boxed};
ghost use Rattle.box_rules.specs.Line.{Wants, gone, line_judged, misfit, pass_by, pass_over, unread};
ghost use Rattle.parts.specs.Condition.{first_fault};
ghost use Rattle.std.specs.Prelude.{◌≡◌};

use super::answer::Answer;
use super::ask::DRAWN;
use super::chest::Chest;
use super::line::{Held, Line, Pass};
use super::table::Table;
use parts::{Drawn, Fault, What, check, is_over, lowest};

// Is the line out of range, or has its place no number any more?
fn is_unread(lines: u64, service: u16, what: &What) -> bool
    ensures { result ≡ unread lines service what.now }
{
    service > 1023 || (what.len > 1024 || lines == u64::MAX)
}

// Is a ticket named that isn't held?
fn is_gone(by: Option<u64>, pass: Option<Pass>) -> bool
    ensures { result ≡ gone by pass }
{
    by.is_some() && pass.is_none()
}

// Is the ticket over?
fn is_pass_over(tick: u64, pass: Option<Pass>) -> bool
    ensures { result ≡ pass_over tick pass }
{
    pass.is_some_and(|pass| is_over(tick, pass.until))
}

// Is the ticket neither for the house nor for that service?
fn is_misfit(service: u16, pass: Option<Pass>) -> bool
    ensures { result ≡ misfit service pass }
{
    pass.is_some_and(|pass| !(pass.service == 0 || pass.service == service))
}

// What is wrong with a line that is in range.
// Here and in `want` what a line names comes by itself: what is promised of a line names each.
fn judge_line<D: Drawn>(
    tick: u64,
    drawn: &D,
    service: u16,
    by: Option<u64>,
    pass: Option<Pass>,
) -> Option<Fault>
    ensures { result ≡ first_fault (line_judged tick (D.left drawn.now) service by pass) }
{
    let wrong = service == 0 || is_misfit(service, pass);
    lowest(&[
        check(Fault::Unknown, is_gone(by, pass)),
        check(Fault::TicketOver, is_pass_over(tick, pass)),
        check(Fault::WrongService, wrong),
        check(Fault::NoDrawnBytes, drawn.count() < DRAWN),
    ])
}

impl<T> Table<Held<T>> {
    // What is known of the ticket that a line names, if it names one that is held.
    fn pass_by(&self, by: Option<u64>) -> Option<Pass>
        ensures { result ≡ pass_by by self.now }
    {
        self.held(by?).map(|held| held.pass)
    }
}

impl<T: Drop> Chest<T> {
    // A line for a service, by a ticket or by none. By none the box logs in, whatever tickets it holds.
    pub fn want<D: Drawn>(
        &mut self,
        drawn: &mut D,
        service: u16,
        by: Option<u64>,
        what: What,
    ) -> Result<Answer, Fault>
        ensures { Wants (boxed self.old (D.left drawn.old)) service by what result (boxed self.new (D.left drawn.new)) }
    {
        if is_unread(self.lines, service, &what) {
            return Err(Fault::OutOfRange);
        }
        let pass = self.tickets.pass_by(by);
        if let Some(fault) = judge_line(self.now, drawn, service, by, pass) {
            return Err(fault);
        }
        self.lines += 1;
        let line = Line {
            place: self.lines,
            service,
            what,
            tick: self.now,
        };
        match pass {
            None => Ok(Answer::LogsIn(self.log_in(drawn, line))),
            Some(pass) => {
                let asking = self.ask(drawn, pass.key, pass.service, line);
                Ok(Answer::Asks(pass.id, asking))
            }
        }
    }
}
