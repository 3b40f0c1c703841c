// What comes of a word that the house heard.
ghost use Rattle.house_side.specs.Hear.{Tells, grant_event, login_event};
ghost use Rattle.locked.specs.Locked.{ours};

use house_rules::{Grant, Granted};
use parts::{Fault, Number};
use sending::grant_word;

// What stands in the house's book where a ticket is given: a login, or a ticket for a service.
#[derive(Clone, Copy)]
pub enum Event {
    LoggedIn {
        reader: u16,
        number: Number,
        until: u64,
    },
    Granted(Grant),
}

// What is noted, an event or the fault, and what is sent: a ticket and a letter, or a refusal.
pub type Heard = sending::Heard<Event, 173>;

// What is noted and sent of the answer to a login.
// A login is noted by no Grant: it is always for the house, and its tick is not noted.
pub(crate) fn told_login(reply: Result<Granted, Fault>) -> Heard
    ensures { Tells ours (login_event reply) reply result }
{
    match reply {
        Ok(granted) => Heard::answered(
            Event::LoggedIn {
                reader: granted.grant.reader,
                number: granted.grant.number,
                until: granted.grant.until,
            },
            grant_word(&granted.ticket, &granted.letter),
        ),
        Err(fault) => Heard::refused(fault),
    }
}

// What is noted and sent of the answer to an asking.
pub(crate) fn told_grant(reply: Result<Granted, Fault>) -> Heard
    ensures { Tells ours (grant_event reply) reply result }
{
    match reply {
        Ok(granted) => Heard::answered(
            Event::Granted(granted.grant),
            grant_word(&granted.ticket, &granted.letter),
        ),
        Err(fault) => Heard::refused(fault),
    }
}
