// The words that stand in a line as its arguments.
ghost use Rattle.std.specs.Prelude.{◌≡◌, Some, None};
ghost use Rattle.commands.specs.Arguments.{ticket_of, lettered, side_of, place_of, piece_of, kind_of, left_of, writes_of};
ghost use Rattle.commands.specs.Both.{NotBoth, AreBoth};

use crate::line::{Piece, Place, Side};
use held::Cut;
use seal::Kind;
use words::{cut, decimal, next, principal};

// Two arguments with a space between them, each as its reader reads it.
pub fn both<A: Drop, B, F: FnOnce(&[u8]) -> Option<A>, G: FnOnce(&[u8]) -> Option<B>>(
    text: &[u8],
    first: F,
    second: G,
) -> Option<(A, B)>
    requires first { F.IsAlwaysCallable first }
    requires second { G.IsAlwaysCallable second }
    ensures { elim result [ None ↦ NotBoth F.FnOnce G.FnOnce first second text.now | Some p ↦ AreBoth F.FnOnce G.FnOnce first second text.now p.0 p.1 ] }
{
    let (a, rest) = next(text, first)?;
    let b = second(rest)?;
    Some((a, b))
}

// A ticket's id, or `none`.
// Two Options: a word that can't be read, and a line that names no ticket.
pub fn read_ticket(word: &[u8]) -> Option<Option<u64>>
    ensures { result ≡ ticket_of word.now }
{
    match word {
        b"none" => Some(None),
        _ => decimal(word).map(Some),
    }
}

// The service or the reader's box of that number.
fn lettered_side(letter: u8, number: u16) -> Option<Side>
    ensures { result ≡ lettered letter number }
{
    match letter {
        b's' => Some(Side::Service(number)),
        b'r' => Some(Side::Reader(number)),
        _ => None,
    }
}

// `house`, or the letter of a service or a reader with its number.
pub fn read_side(word: &[u8]) -> Option<Side>
    ensures { result ≡ side_of word.now }
{
    match word {
        b"house" => Some(Side::House),
        [letter, digits @ ..] => lettered_side(*letter, principal(digits)?),
        [] => None,
    }
}

// 1 or 2.
fn read_place(word: &[u8]) -> Option<Place>
    ensures { result ≡ place_of word.now }
{
    match word {
        b"1" => Some(Place::First),
        b"2" => Some(Place::Second),
        _ => None,
    }
}

// W.I: a word's number, a dot, and which of its locks.
pub fn read_piece(text: &[u8]) -> Option<Piece>
    ensures { result ≡ piece_of text.now }
{
    let (number, which) = cut(text, b'.')?;
    let word = decimal(number)?;
    let place = read_place(which)?;
    Some(Piece { word, place })
}

// The number of a kind of locks.
pub fn read_kind(word: &[u8]) -> Option<Kind>
    ensures { result ≡ kind_of word.now }
{
    Kind::try_from(decimal(word)?).ok()
}

// `old`, `new` or `junk`.
pub fn read_left(word: &[u8]) -> Option<Cut<()>>
    ensures { result ≡ left_of word.now }
{
    match word {
        b"old" => Some(Cut::Old),
        b"new" => Some(Cut::New(())),
        b"junk" => Some(Cut::Junk),
        _ => None,
    }
}

// `ok` or `fail`: whether a device writes.
pub fn read_writes(word: &[u8]) -> Option<bool>
    ensures { result ≡ writes_of word.now }
{
    match word {
        b"ok" => Some(true),
        b"fail" => Some(false),
        _ => None,
    }
}
