// The login and the asking that a box sends.
ghost use Rattle.std.specs.Prelude.{◌≡◌, ◌≤◌, length, drop};
ghost use Rattle.box_rules.specs.Chest.{asked, asking_of, boxed, tick_of, two_bytes, what_of};
ghost use Rattle.box_rules.specs.Line.{logged_in, login_of};
ghost use Rattle.parts.specs.Drawn.{number_of, salt_of};

use super::chest::Chest;
use super::line::{Line, Pending};
use parts::{Asking, Drawn, Key, Lock, Login, Number, Salt, What, take};

// How many bytes a login or an asking draws.
pub(crate) const DRAWN: usize = 32;

// Draws a number and the bytes for a lock.
fn draw<D: Drawn>(drawn: &mut D) -> (Number, Salt)
    requires { 32 ≤ length (D.left drawn.old) }
    ensures number { result.0 ≡ number_of (D.left drawn.old) }
    ensures salt { result.1 ≡ salt_of (drop 16 (D.left drawn.old)) }
    ensures rest { D.left drawn.new ≡ drop 32 (D.left drawn.old) }
{
    let number = Number(take(drawn));
    let salt = Salt(take(drawn));
    (number, salt)
}

// A service's number in two bytes.
fn two_bytes(service: u16) -> What
    ensures { result ≡ two_bytes service }
{
    What::new(&service.to_be_bytes())
}

impl Line {
    // What is asked: of the house the line's service, of a service what the line says.
    fn what_for(self, asks: u16) -> What
        ensures { result ≡ what_of asks self }
    {
        if asks == 0 {
            two_bytes(self.service)
        } else {
            self.what
        }
    }

    // The tick of an asking: to the house that of sending, to a service that of the line.
    fn tick_for(self, asks: u16, sent: u64) -> u64
        ensures { result ≡ tick_of sent asks self }
    {
        if asks == 0 { sent } else { self.tick }
    }
}

impl<T: Drop> Chest<T> {
    // Logs in for a line. It is no case of `ask`, since its table and the inside of its lock are others.
    pub(crate) fn log_in<D: Drawn>(&mut self, drawn: &mut D, line: Line) -> Lock<Login>
        requires { 32 ≤ length (D.left drawn.old) }
        ensures sent { result ≡ login_of (boxed self.old (D.left drawn.old)) }
        ensures after { boxed self.new (D.left drawn.new) ≡ logged_in (boxed self.old (D.left drawn.old)) line }
    {
        let (number, salt) = draw(drawn);
        self.logins.put(Pending {
            number,
            key: self.key,
            asks: 0,
            line,
        });
        Lock {
            key: self.key,
            salt,
            inside: Login {
                number,
                tick: self.now,
            },
        }
    }

    // Asks the house or a service under a key, for a line.
    pub(crate) fn ask<D: Drawn>(
        &mut self,
        drawn: &mut D,
        key: Key,
        asks: u16,
        line: Line,
    ) -> Lock<Asking>
        requires { 32 ≤ length (D.left drawn.old) }
        ensures sent { result ≡ asking_of (boxed self.old (D.left drawn.old)) key asks line }
        ensures after { boxed self.new (D.left drawn.new) ≡ asked (boxed self.old (D.left drawn.old)) key asks line }
    {
        let (number, salt) = draw(drawn);
        self.askings.put(Pending {
            number,
            key,
            asks,
            line,
        });
        Lock {
            key,
            salt,
            inside: Asking {
                service: asks,
                number,
                what: line.what_for(asks),
                tick: line.tick_for(asks, self.now),
            },
        }
    }
}
