// A letter, in bytes.
ghost use Rattle.std.specs.Prelude.{◌≡◌};
ghost use Rattle.contents.specs.Inside.{read_letter, write_letter};
ghost use Rattle.seal.specs.declared.kind.Kind.TheVariants as kind;

use crate::field::{array_at, fill};
use crate::inside::{Inside, is_inside};
use parts::{Fault, Key, Letter, Number};
use seal::Kind;

// The length of the inside.
const LEN: usize = 59;

impl Inside for Letter {
    ghost KIND = { kind.Letter };

    ghost read_in = { read_letter };

    ghost written = { write_letter };

    ghost len = { λ _. 59 };

    ghost MOST = { 59 };

    const KIND: Kind = Kind::Letter;

    fn read(inside: &[u8]) -> Result<Letter, Fault> {
        if !is_inside(inside, Self::KIND, LEN) {
            return Err(Fault::BadInside);
        }
        Ok(Letter {
            number: Number(array_at(inside, 1)),
            service: u16::from_be_bytes(array_at(inside, 17)),
            key: Key(array_at(inside, 19)),
            until: u64::from_be_bytes(array_at(inside, 51)),
        })
    }

    fn len(&self) -> usize {
        LEN
    }

    fn write(&self, out: &mut [u8]) {
        fill(
            out,
            &[
                &[Self::KIND.number()],
                &self.number.0,
                &self.service.to_be_bytes(),
                &self.key.0,
                &self.until.to_be_bytes(),
            ],
        );
    }
}

// The inside of a letter, in an array of its length.
pub fn write_letter(letter: Letter) -> [u8; 59]
    ensures { result ≡ write_letter letter }
{
    let mut out = [0; 59];
    letter.write(&mut out);
    out
}
