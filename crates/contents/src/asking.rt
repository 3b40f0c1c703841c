// Askings, whose words are a part of other bytes or held: read to the exact end, and written.
ghost use Rattle.std.specs.Prelude.{◌≡◌, ◌+◌, ◌≤◌, length};
ghost use Rattle.contents.specs.ByValue.{asked_of, asking_ok};
ghost use Rattle.contents.specs.Inside.{asked, asked_in, asking_left, asking_room, read_asking, write_asking};
ghost use Rattle.parts.specs.What.{words_in};
ghost use Rattle.seal.specs.declared.kind.Kind.TheVariants as kind;

use crate::field::{array_at, fill};
use crate::inside::{Inside, is_inside};
use parts::{Fault, Number, What};
use seal::Kind;

// The length of an asking without what is asked.
const ASKING_LEN: usize = 29;

// The most bytes that can be asked.
const WHAT_MOST: usize = 1024;

// An asking: for which service, its number, what is asked as a part of other bytes, and the tick.
// Beside the asking by value, since one that is refused then costs no copy of 1,024 bytes.
#[derive(Clone, Copy)]
pub struct Asking<'a> {
    pub service: u16,
    pub number: Number,
    pub what: &'a [u8],
    pub tick: u64,
}

// The asking that an inside is; what is asked is a part of the inside.
pub fn read_asking(inside: &[u8]) -> Result<Asking<'_>, Fault>
    ensures { asked_in result ≡ read_asking inside.now }
{
    if inside.len() < ASKING_LEN {
        return Err(Fault::BadInside);
    }
    let len = u16::from_be_bytes(array_at(inside, 19)) as usize;
    if len > WHAT_MOST || !is_inside(inside, Kind::Asking, ASKING_LEN + len) {
        return Err(Fault::BadInside);
    }
    Ok(Asking {
        service: u16::from_be_bytes(array_at(inside, 1)),
        number: Number(array_at(inside, 3)),
        what: &inside[21..21 + len],
        tick: u64::from_be_bytes(array_at(inside, 21 + len)),
    })
}

// Fills a memory of its length with the inside of an asking.
fn fill_asking<'a>(asking: &'a Asking<'a>, out: &mut [u8])
    requires { (length out.old ≡ 29 + length asking.now.what.now) × (length asking.now.what.now ≤ 1024) }
    ensures { out.new ≡ write_asking (asked asking.now) }
{
    fill(
        out,
        &[
            &[Kind::Asking.number()],
            &asking.service.to_be_bytes(),
            &asking.number.0,
            &(asking.what.len() as u16).to_be_bytes(),
            asking.what,
            &asking.tick.to_be_bytes(),
        ],
    );
}

// Writes the inside of an asking to the front of a memory, and says how long it is.
// Where `what` is too long, or the memory too short, it is refused, and the memory stays.
// A count and no slice of `out`: what is promised says what stands in all of `out` afterwards.
pub fn write_asking(asking: Asking<'_>, out: &mut [u8]) -> Option<usize>
    ensures length { result ≡ asking_room (asked asking.entry) (length out.old) }
    ensures left { out.new ≡ asking_left (asked asking.entry) out.old }
{
    if asking.what.len() > WHAT_MOST {
        return None;
    }
    let len = ASKING_LEN + asking.what.len();
    if len > out.len() {
        return None;
    }
    fill_asking(&asking, &mut out[0..len]);
    Some(len)
}

// An asking that holds its words.
impl Inside for parts::Asking {
    ghost KIND = { kind.Asking };

    ghost read_in = { λ bs. asking_ok (read_asking bs) };

    ghost written = { λ q. write_asking (asked_of q) };

    ghost len = { λ q. 29 + length (words_in q.what) };

    ghost MOST = { 1053 };

    const KIND: Kind = Kind::Asking;

    fn read(inside: &[u8]) -> Result<parts::Asking, Fault> {
        let asking = read_asking(inside)?;
        Ok(parts::Asking {
            service: asking.service,
            number: asking.number,
            what: What::new(asking.what),
            tick: asking.tick,
        })
    }

    fn len(&self) -> usize {
        ASKING_LEN + self.what.words().len()
    }

    fn write(&self, out: &mut [u8]) {
        let asking = Asking {
            service: self.service,
            number: self.number,
            what: self.what.words(),
            tick: self.tick,
        };
        fill_asking(&asking, out);
    }
}
