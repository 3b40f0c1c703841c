// A login, in bytes.
ghost use Rattle.std.specs.Prelude.{◌≡◌};
ghost use Rattle.contents.specs.Inside.{read_login, write_login};
ghost use Rattle.seal.specs.declared.kind.Kind.TheVariants as kind;

use crate::field::{array_at, fill};
use crate::inside::{Inside, is_inside};
use parts::{Fault, Login, Number};
use seal::Kind;

// The length of the inside.
const LEN: usize = 25;

impl Inside for Login {
    ghost KIND = { kind.Login };

    ghost read_in = { read_login };

    ghost written = { write_login };

    ghost len = { λ _. 25 };

    ghost MOST = { 25 };

    const KIND: Kind = Kind::Login;

    fn read(inside: &[u8]) -> Result<Login, Fault> {
        if !is_inside(inside, Self::KIND, LEN) {
            return Err(Fault::BadInside);
        }
        Ok(Login {
            number: Number(array_at(inside, 1)),
            tick: u64::from_be_bytes(array_at(inside, 17)),
        })
    }

    fn len(&self) -> usize {
        LEN
    }

    fn write(&self, out: &mut [u8]) {
        fill(
            out,
            &[
                &[Self::KIND.number()],
                &self.number.0,
                &self.tick.to_be_bytes(),
            ],
        );
    }
}

// The inside of a login, in an array of its length.
pub fn write_login(login: Login) -> [u8; 25]
    ensures { result ≡ write_login login }
{
    let mut out = [0; 25];
    login.write(&mut out);
    out
}
