// A ticket, in bytes.
ghost use Rattle.std.specs.Prelude.{◌≡◌};
ghost use Rattle.contents.specs.Inside.{read_ticket, write_ticket};
ghost use Rattle.seal.specs.declared.kind.Kind.TheVariants as kind;

use crate::field::{array_at, fill};
use crate::inside::{Inside, is_inside};
use parts::{Fault, Key, Ticket};
use seal::Kind;

// The length of the inside.
const LEN: usize = 45;

impl Inside for Ticket {
    ghost KIND = { kind.Ticket };

    ghost read_in = { read_ticket };

    ghost written = { write_ticket };

    ghost len = { λ _. 45 };

    ghost MOST = { 45 };

    const KIND: Kind = Kind::Ticket;

    fn read(inside: &[u8]) -> Result<Ticket, Fault> {
        if !is_inside(inside, Self::KIND, LEN) {
            return Err(Fault::BadInside);
        }
        Ok(Ticket {
            service: u16::from_be_bytes(array_at(inside, 1)),
            reader: u16::from_be_bytes(array_at(inside, 3)),
            key: Key(array_at(inside, 5)),
            until: u64::from_be_bytes(array_at(inside, 37)),
        })
    }

    fn len(&self) -> usize {
        LEN
    }

    fn write(&self, out: &mut [u8]) {
        fill(
            out,
            &[
                &[Self::KIND.number()],
                &self.service.to_be_bytes(),
                &self.reader.to_be_bytes(),
                &self.key.0,
                &self.until.to_be_bytes(),
            ],
        );
    }
}

// The inside of a ticket, in an array of its length.
pub fn write_ticket(ticket: Ticket) -> [u8; 45]
    ensures { result ≡ write_ticket ticket }
{
    let mut out = [0; 45];
    ticket.write(&mut out);
    out
}
