// What the table prints of a line: its parts by name, keys and bytes in hex.
use commands::line::{Account, Join, Line, NewLock, Opening, Piece, Place, Settings, Side, Want};
use commands::lines::read;
use held::Cut;
use std::alloc::{AllocError, Global};
use std::fmt;
use words::hex_bytes;

// A part of a line, as the table prints it.
#[derive(Clone, Copy)]
struct Shown<T>(T);

impl fmt::Display for Shown<Side> {
    fn fmt<W: fmt::Write>(&self, f: &mut fmt::Formatter<W>) -> fmt::Result {
        match self.0 {
            Side::House => write!(f, "the-house"),
            Side::Service(n) => write!(f, "service-{n}"),
            Side::Reader(n) => write!(f, "box-{n}"),
        }
    }
}

impl fmt::Display for Shown<Piece> {
    fn fmt<W: fmt::Write>(&self, f: &mut fmt::Formatter<W>) -> fmt::Result {
        let word = self.0.word;
        match self.0.place {
            Place::First => write!(f, "first-of-{word}"),
            Place::Second => write!(f, "second-of-{word}"),
        }
    }
}

impl fmt::Display for Shown<Join> {
    fn fmt<W: fmt::Write>(&self, f: &mut fmt::Formatter<W>) -> fmt::Result {
        match self.0 {
            Join::Login { reader, lock } => write!(f, "login {reader} {}", Shown(lock)),
            Join::Letter { ticket, letter } => {
                write!(f, "letter {} {}", Shown(ticket), Shown(letter))
            }
            Join::Asking { ticket, asking } => {
                write!(f, "asking {} {}", Shown(ticket), Shown(asking))
            }
        }
    }
}

impl fmt::Display for Shown<Cut<()>> {
    fn fmt<W: fmt::Write>(&self, f: &mut fmt::Formatter<W>) -> fmt::Result {
        match self.0 {
            Cut::Old => write!(f, "old"),
            Cut::New(()) => write!(f, "new"),
            Cut::Junk => write!(f, "junk"),
        }
    }
}

// Bytes in hex, with their count before them.
fn counted(heap: Global, bytes: &[u8]) -> Result<String, AllocError> {
    let digits = hex::encode(heap, bytes)?;
    format!(in heap; "{}:{digits}", bytes.len())
}

// The bytes that a word of a line gives.
// No Display, here and in the six below: keys and bytes are told in hex, and that takes memory.
fn given(heap: Global, word: &[u8]) -> Result<String, AllocError> {
    let bytes = hex_bytes(heap, word)?;
    counted(heap, bytes.as_slice())
}

fn town_text(heap: Global, x: Settings) -> Result<String, AllocError> {
    let seed = counted(heap, &x.seed.0)?;
    format!(in heap; "town {} {} {} {seed}", x.tick, x.life, x.lag)
}

fn account_text(heap: Global, kind: &str, a: Account) -> Result<String, AllocError> {
    let key = counted(heap, &a.key.0)?;
    format!(in heap; "{kind} {} {key}", a.number)
}

fn want_text(heap: Global, w: Want<'_>) -> Result<String, AllocError> {
    let what = given(heap, w.what)?;
    match w.ticket {
        Some(id) => format!(in heap; "want {} {} ticket-{id} {what}", w.reader, w.service),
        None => format!(in heap; "want {} {} no-ticket {what}", w.reader, w.service),
    }
}

fn lock_text(heap: Global, m: NewLock<'_>) -> Result<String, AllocError> {
    let key = counted(heap, &m.key.0)?;
    let inside = given(heap, m.inside)?;
    format!(in heap; "lock kind-{} {key} {inside}", m.kind.number())
}

fn unlock_text(heap: Global, o: Opening) -> Result<String, AllocError> {
    let key = counted(heap, &o.key.0)?;
    format!(in heap; "unlock {} kind-{} {key}", Shown(o.lock), o.kind.number())
}

fn bytes_text(heap: Global, word: &[u8]) -> Result<String, AllocError> {
    let bytes = given(heap, word)?;
    format!(in heap; "bytes {bytes}")
}

// What a line says.
fn line_text(heap: Global, line: Line<'_>) -> Result<String, AllocError> {
    match line {
        Line::Blank => String::from_str(heap, "blank"),
        Line::Town(x) => town_text(heap, x),
        Line::Reader(a) => account_text(heap, "reader", a),
        Line::Service(a) => account_text(heap, "service", a),
        Line::Tick(n) => format!(in heap; "tick {n}"),
        Line::Want(w) => want_text(heap, w),
        Line::Close(n) => format!(in heap; "close {n}"),
        Line::Hold(n) => format!(in heap; "hold {n}"),
        Line::Repeat { word, side } => format!(in heap; "repeat {word} {}", Shown(side)),
        Line::Join(join) => format!(in heap; "join {}", Shown(join)),
        Line::Steal(n) => format!(in heap; "steal {n}"),
        Line::Lock(m) => lock_text(heap, m),
        Line::Unlock(o) => unlock_text(heap, o),
        Line::Bytes(word) => bytes_text(heap, word),
        Line::Fall(side) => format!(in heap; "fall {}", Shown(side)),
        Line::Cut { side, left } => format!(in heap; "cut {} leaves-{}", Shown(side), Shown(left)),
        Line::Device { side, writes: true } => format!(in heap; "device-writes {}", Shown(side)),
        Line::Device {
            side,
            writes: false,
        } => format!(in heap; "device-fails {}", Shown(side)),
    }
}

// What a line says, or 13.
pub fn answer(heap: Global, line: &[u8]) -> Result<String, AllocError> {
    match read(line) {
        Some(said) => line_text(heap, said),
        None => String::from_str(heap, "13"),
    }
}
