// The lines of a script: how a text is cut into lines, and what one says.
ghost use Rattle.std.specs.Prelude.{◌≡◌, ◌<◌, length, Some, None};
ghost use Rattle.commands.specs.Grammar.{line_of, rest_of, settings_of, account_of, wish_of, join_of, making_of, opening_of, saying_of, silent, read_of};
ghost use Rattle.std.specs.Iterator.{at_most};
ghost use Rattle.commands.specs.Comes.{LineComes};
ghost use Rattle.commands.specs.Said.{said, wished, making};

use crate::arguments::{
    both, read_kind, read_left, read_piece, read_side, read_ticket, read_writes,
};
use crate::line::{Account, Join, Line, NewLock, Opening, Settings, Side, Want};
use crate::verbs::{Verb, read_verb};
use words::{as_key, cut, decimal, hex_word, next, principal, short};

// A line of more bytes can't be read.
const MAX_LINE: usize = 1_048_576;

// The first line of a text, and what comes after its end.
pub fn first_line(text: &[u8]) -> (&[u8], &[u8])
    ensures line { result.0.now ≡ line_of text.now }
    ensures rest { result.1.now ≡ rest_of text.now }
    ensures shorter { 0 < length text.now → length result.1.now < length text.now }
{
    match cut(text, b'\n') {
        Some((line, rest)) => (line, rest),
        None => (text, &text[text.len()..]),
    }
}

// The lines of a text, from the first on.
#[derive(Drop)]
pub struct Lines<'a> {
    rest: &'a [u8],
}

impl<'a> Lines<'a> {
    // All lines of a text.
    pub fn new(text: &'a [u8]) -> Lines<'a>
        ensures { result.rest.now ≡ text.now }
    {
        Lines { rest: text }
    }
}

impl<'a> Iterator for Lines<'a> {
    type Item = &'a [u8];

    ghost next_gives = { λ s r t. LineComes s.rest.now r t.rest.now };

    ghost remaining = { λ s. at_most (length s.rest.now) };

    fn next(&mut self) -> Option<&'a [u8]> {
        if self.rest.is_empty() {
            return None;
        }
        let (line, rest) = first_line(self.rest);
        self.rest = rest;
        Some(line)
    }
}

// What a line says; `None` where it can't be read.
pub fn read(line: &[u8]) -> Option<Line>
    ensures { elim result [ None ↦ read_of line.now ≡ None | Some l ↦ read_of line.now ≡ Some (said l) ] }
{
    if line.len() > MAX_LINE {
        return None;
    }
    if is_silent(line) {
        return Some(Line::Blank);
    }
    saying(line)
}

// Whether a line is empty or a comment.
fn is_silent(line: &[u8]) -> bool
    ensures { result ≡ silent line.now }
{
    matches!(line, [] | [b'#', ..])
}

// What a line says that is neither empty nor a comment.
fn saying(line: &[u8]) -> Option<Line>
    ensures { elim result [ None ↦ saying_of line.now ≡ None | Some l ↦ saying_of line.now ≡ Some (said l) ] }
{
    let (word, rest) = cut(line, b' ')?;
    match read_verb(word)? {
        Verb::Town => Some(Line::Town(read_settings(rest)?)),
        Verb::Reader => Some(Line::Reader(read_account(rest)?)),
        Verb::Service => Some(Line::Service(read_account(rest)?)),
        Verb::Tick => Some(Line::Tick(decimal(rest)?)),
        Verb::Want => Some(Line::Want(read_want(rest)?)),
        Verb::Close => Some(Line::Close(decimal(rest)?)),
        Verb::Hold => Some(Line::Hold(decimal(rest)?)),
        Verb::Repeat => {
            let (word, side) = both(rest, decimal, read_side)?;
            Some(Line::Repeat { word, side })
        }
        Verb::Join => Some(Line::Join(read_join(rest)?)),
        Verb::Steal => Some(Line::Steal(decimal(rest)?)),
        Verb::Lock => Some(Line::Lock(read_lock(rest)?)),
        Verb::Unlock => Some(Line::Unlock(read_opening(rest)?)),
        Verb::Bytes => Some(Line::Bytes(hex_word(rest)?)),
        Verb::Fall => Some(Line::Fall(read_side(rest)?)),
        Verb::Cut => {
            let (side, left) = both(rest, read_side, read_left)?;
            Some(Line::Cut { side, left })
        }
        Verb::Device => {
            let (side, writes) = both(rest, read_side, read_writes)?;
            Some(Line::Device { side, writes })
        }
    }
}

// TICK LIFE LAG SEED
fn read_settings(text: &[u8]) -> Option<Settings>
    ensures { result ≡ settings_of text.now }
{
    let (tick, rest) = next(text, decimal)?;
    let (life, rest) = next(rest, decimal)?;
    let (lag, rest) = next(rest, decimal)?;
    let seed = as_key(rest)?;
    Some(Settings {
        tick,
        life,
        lag,
        seed,
    })
}

// N KEY
fn read_account(text: &[u8]) -> Option<Account>
    ensures { result ≡ account_of text.now }
{
    let (number, key) = both(text, principal, as_key)?;
    Some(Account { number, key })
}

// READER SERVICE TICKET WHAT
fn read_want(text: &[u8]) -> Option<Want>
    ensures { elim result [ None ↦ wish_of text.now ≡ None | Some w ↦ wish_of text.now ≡ Some (wished w) ] }
{
    let (reader, rest) = next(text, decimal)?;
    let (service, rest) = next(rest, decimal)?;
    let (ticket, rest) = next(rest, read_ticket)?;
    let what = hex_word(rest)?;
    Some(Want {
        reader,
        service,
        ticket,
        what,
    })
}

// KIND and what a word of that kind is made of: READER W.I of a login, else two locks W.I. The numbers are the script's.
fn read_join(text: &[u8]) -> Option<Join>
    ensures { result ≡ join_of text.now }
{
    let (kind, rest) = next(text, decimal)?;
    match kind {
        1 => {
            let (reader, lock) = both(rest, short, read_piece)?;
            Some(Join::Login { reader, lock })
        }
        2 => {
            let (ticket, letter) = both(rest, read_piece, read_piece)?;
            Some(Join::Letter { ticket, letter })
        }
        3 => {
            let (ticket, asking) = both(rest, read_piece, read_piece)?;
            Some(Join::Asking { ticket, asking })
        }
        _ => None,
    }
}

// KIND KEY INSIDE
fn read_lock(text: &[u8]) -> Option<NewLock>
    ensures { elim result [ None ↦ making_of text.now ≡ None | Some m ↦ making_of text.now ≡ Some (making m) ] }
{
    let (kind, rest) = next(text, read_kind)?;
    let (key, rest) = next(rest, as_key)?;
    let inside = hex_word(rest)?;
    Some(NewLock { kind, key, inside })
}

// W.I KIND KEY
fn read_opening(text: &[u8]) -> Option<Opening>
    ensures { result ≡ opening_of text.now }
{
    let (lock, rest) = next(text, read_piece)?;
    let (kind, rest) = next(rest, read_kind)?;
    let key = as_key(rest)?;
    Some(Opening { lock, kind, key })
}
