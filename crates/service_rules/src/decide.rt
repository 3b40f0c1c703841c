// The decision on an opened ticket and asking.
ghost use Rattle.parts.specs.Condition.{first_fault};
ghost use Rattle.service_rules.specs.Service.{Decides, judged, nobody, view};
ghost use Rattle.std.specs.Prelude.{◌≡◌};

use super::answer::{Deed, Done};
use super::memory::{Memory, ROOM};
use super::side::Side;
use parts::{Asking, Drawn, Fault, Lock, Receipt, Salt, Ticket, check, is_over, lowest, take};

// Has nobody this number?
pub fn is_nobody(number: u16) -> bool
    ensures { result ≡ nobody number }
{
    number == 0 || number > 1023
}

impl Side {
    // What is wrong, of all that can be told before anything is written.
    fn judge<M: Memory, D: Drawn>(
        &self,
        memory: &M,
        drawn: &D,
        ticket: Ticket,
        asking: Asking,
        digest: u128,
    ) -> Option<Fault>
        ensures { result ≡ first_fault (judged self.entry.now (M.kept memory.now) (D.left drawn.now) ticket asking digest) }
    {
        let clock = self.clock();
        let here = ticket.service == self.number && asking.service == self.number;
        lowest(&[
            check(Fault::Unknown, is_nobody(ticket.reader)),
            check(Fault::NotLately, !clock.is_lately(asking.tick)),
            check(Fault::TicketOver, is_over(self.now, ticket.until)),
            check(Fault::DoneBefore, memory.stands(digest, clock)),
            check(Fault::NoRoom, memory.live(clock) >= ROOM),
            check(Fault::WrongService, !here),
            check(Fault::NoDrawnBytes, drawn.count() < 16),
            check(Fault::NotNow, self.waits()),
        ])
    }

    // Decides on an asking under a ticket. What it does is written to the device before a drawn byte is used or anything is told.
    pub fn decide<M: Memory, D: Drawn>(
        &self,
        memory: &mut M,
        drawn: &mut D,
        ticket: Ticket,
        asking: Asking,
        digest: u128,
    ) -> Result<Done, Fault>
        ensures decides { Decides
            (view self.entry.now (M.kept memory.old) (M.junk memory.old) (M.writes memory.new) (D.left drawn.old))
            ticket asking digest result
            (view self.exit.now (M.kept memory.new) (M.junk memory.new) (M.writes memory.new) (D.left drawn.new)) }
        ensures keeps { M.keeps memory.old memory.new }
    {
        if let Some(fault) = self.judge(memory, drawn, ticket, asking, digest) {
            return Err(fault);
        }
        memory.record(digest, self.clock())?;
        let deed = Deed {
            reader: ticket.reader,
            number: asking.number,
            what: asking.what,
            asked: asking.tick,
            until: ticket.until,
        };
        let receipt = Lock {
            key: ticket.key,
            salt: Salt(take(drawn)),
            inside: Receipt {
                number: asking.number,
            },
        };
        Ok(Done { deed, receipt })
    }
}
