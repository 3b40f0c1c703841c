// The decision on an asking for a ticket.
ghost use Rattle.house_rules.specs.House.{Decides, for_house, home, judged, misled, missing, readable, wanted};
ghost use Rattle.parts.specs.Condition.{first_fault};
ghost use Rattle.std.specs.Prelude.{◌≡◌};

use super::accounts::Accounts;
use super::fresh::DRAWN;
use super::give::Given;
use super::house::House;
use super::known::{is_closed, is_unknown, own_key};
use super::reply::Granted;
use parts::{Asking, Drawn, Fault, Ticket, check, is_over, lowest};
use service_rules::{Memory, ROOM};

// Can what is asked be read? It is read only if the asking is for the house.
fn is_readable(asking: &Asking) -> bool
    ensures { result ≡ readable asking.now }
{
    asking.service != 0 || asking.what.len == 2
}

// The service that an asking for the house names.
fn wanted_of(asking: &Asking) -> u16
    ensures { result ≡ wanted asking.now }
{
    let [high, low, ..] = asking.what.bytes;
    u16::from_be_bytes([high, low])
}

// Is a service asked for that isn't there?
fn is_missing<A: Accounts>(accounts: &A, asking: &Asking) -> bool
    ensures { result ≡ missing (A.listed accounts.now) asking.now }
{
    let service = wanted_of(asking);
    asking.service == 0 && (service != 0 && is_unknown(accounts, service))
}

// Is the asking for somebody else, or for the house as a service?
fn is_misled(asking: &Asking) -> bool
    ensures { result ≡ misled asking.now }
{
    asking.service != 0 || wanted_of(asking) == 0
}

impl House {
    // What is wrong with an asking that was read, of all that can be told before anything is written.
    // Its rows stand in the order of the faults, those of a login around the others: one list would hide it.
    fn judge_asking<A: Accounts, M: Memory, D: Drawn>(
        &self,
        accounts: &A,
        memory: &M,
        drawn: &D,
        ticket: Ticket,
        asking: &Asking,
        digest: u128,
    ) -> Option<Fault>
        ensures { result ≡ first_fault (judged self.now.side (A.listed accounts.now) (M.kept memory.now) (D.left drawn.now) ticket asking.now digest) }
    {
        let clock = self.side.clock();
        let unknown = is_unknown(accounts, ticket.reader) || is_missing(accounts, asking);
        let wrong = ticket.service != 0 || is_misled(asking);
        lowest(&[
            check(Fault::Unknown, unknown),
            check(Fault::AccountClosed, is_closed(accounts, ticket.reader)),
            check(Fault::NotLately, !clock.is_lately(asking.tick)),
            check(Fault::TicketOver, is_over(clock.tick, ticket.until)),
            check(Fault::DoneBefore, memory.stands(digest, clock)),
            check(Fault::NoRoom, memory.live(clock) >= ROOM),
            check(Fault::WrongService, wrong),
            check(Fault::NoDrawnBytes, drawn.count() < DRAWN),
            check(Fault::NotNow, self.side.waits()),
        ])
    }

    // Decides on an asking under a ticket. It is written to the device before a drawn byte is used or anything is told.
    pub fn ask<A: Accounts, M: Memory, D: Drawn>(
        &self,
        accounts: &A,
        memory: &mut M,
        drawn: &mut D,
        ticket: Ticket,
        asking: &Asking,
        digest: u128,
    ) -> Result<Granted, Fault>
        ensures decides { Decides
            (home self.now (A.listed accounts.now) (M.kept memory.old) (M.junk memory.old) (M.Memory.writes memory.new) (D.left drawn.old))
            ticket asking.now digest result
            (home self.now (A.listed accounts.now) (M.kept memory.new) (M.junk memory.new) (M.Memory.writes memory.new) (D.left drawn.new)) }
        ensures keeps { M.Memory.keeps memory.old memory.new }
    {
        if !is_readable(asking) {
            return Err(Fault::BadInside);
        }
        if let Some(fault) = self.judge_asking(accounts, memory, drawn, ticket, asking, digest) {
            return Err(fault);
        }
        memory.record(digest, self.side.clock())?;
        let service = wanted_of(asking);
        let given = Given {
            service,
            reader: ticket.reader,
            number: asking.number,
            asked: asking.tick,
            own: own_key(accounts, service),
            under: ticket.key,
        };
        Ok(self.give(drawn, given))
    }
}
