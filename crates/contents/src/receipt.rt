// A receipt, in bytes.
ghost use Rattle.std.specs.Prelude.{◌≡◌};
ghost use Rattle.contents.specs.Inside.{read_receipt, write_receipt};
ghost use Rattle.seal.specs.declared.kind.Kind.TheVariants as kind;

use crate::field::{array_at, fill};
use crate::inside::{Inside, is_inside};
use parts::{Fault, Number, Receipt};
use seal::Kind;

// The length of the inside.
const LEN: usize = 17;

impl Inside for Receipt {
    ghost KIND = { kind.Receipt };

    ghost read_in = { read_receipt };

    ghost written = { write_receipt };

    ghost len = { λ _. 17 };

    ghost MOST = { 17 };

    const KIND: Kind = Kind::Receipt;

    fn read(inside: &[u8]) -> Result<Receipt, Fault> {
        if !is_inside(inside, Self::KIND, LEN) {
            return Err(Fault::BadInside);
        }
        Ok(Receipt {
            number: Number(array_at(inside, 1)),
        })
    }

    fn len(&self) -> usize {
        LEN
    }

    fn write(&self, out: &mut [u8]) {
        fill(out, &[&[Self::KIND.number()], &self.number.0]);
    }
}

// The inside of a receipt, in an array of its length.
pub fn write_receipt(receipt: Receipt) -> [u8; 17]
    ensures { result ≡ write_receipt receipt }
{
    let mut out = [0; 17];
    receipt.write(&mut out);
    out
}
