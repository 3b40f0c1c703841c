// A ticket and a letter with one fresh key.
ghost use Rattle.std.specs.Prelude.{◌≡◌, ◌+◌, ◌≤◌, length, drop};
ghost use Rattle.house_rules.specs.Give.{given_out};

use super::fresh::draw;
use super::house::House;
use super::reply::{Grant, Granted};
use parts::{Drawn, Key, Letter, Lock, Number, Ticket};

// For which service and whom, the number of the login or asking and its tick, the service's own key, under which the
// ticket goes, and a key of the reader's, under which the letter goes.
// Beside Grant: what is given before the key is drawn, and no `until` yet.
#[derive(Clone, Copy)]
pub struct Given {
    pub service: u16,
    pub reader: u16,
    pub number: Number,
    pub asked: u64,
    pub own: Key,
    pub under: Key,
}

impl House {
    // Draws a key, and gives it in a ticket and in a letter.
    // The bound stands here and in `draw`: nothing else is asked of the bytes that are left.
    pub(crate) fn give<D: Drawn>(&self, drawn: &mut D, given: Given) -> Granted
        requires { 64 ≤ length (D.left drawn.old) }
        ensures value { result ≡ given_out (self.now.side.now + self.now.life) (D.left drawn.old) given }
        ensures rest { D.left drawn.new ≡ drop 64 (D.left drawn.old) }
    {
        let until = self.side.now + u64::from(self.life);
        let fresh = draw(drawn);
        let Given {
            service,
            reader,
            number,
            asked,
            own,
            under,
        } = given;
        Granted {
            grant: Grant {
                reader,
                service,
                number,
                asked,
                until,
            },
            ticket: Lock {
                key: own,
                salt: fresh.ticket,
                inside: Ticket {
                    service,
                    reader,
                    key: fresh.key,
                    until,
                },
            },
            letter: Lock {
                key: under,
                salt: fresh.letter,
                inside: Letter {
                    number,
                    service,
                    key: fresh.key,
                    until,
                },
            },
        }
    }
}
