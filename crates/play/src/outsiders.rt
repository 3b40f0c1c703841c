// What outsiders can do with words: bring them again, join their pieces, and make up their own.
use super::say;
use super::town::{Town, Word};
use commands::line::{Join, NewLock, Opening, Piece, Place, Side};
use parts::{Drawn, take};
use printed::Text;
use seal::{append_lock, inside, open_in_place};
use std::alloc::AllocError;
use wire::{Unwritten, Word as Frame, read_word, write_word};
use words::hex_bytes;

// The lock of a word at a place; a lock that is a piece of its own is its first.
// One match of frame and place; a lone piece has a first place only.
fn lock_in(word: &Word, place: Place) -> Option<&[u8]> {
    if word.piece {
        return match place {
            Place::First => Some(word.bytes.as_slice()),
            Place::Second => None,
        };
    }
    match (read_word(word.bytes.as_slice()), place) {
        (Ok(Frame::Login { lock, .. }), Place::First) => Some(lock),
        (Ok(Frame::Receipt { lock }), Place::First) => Some(lock),
        (Ok(Frame::TicketAndLetter { ticket, .. }), Place::First) => Some(ticket),
        (Ok(Frame::TicketAndLetter { letter, .. }), Place::Second) => Some(letter),
        (Ok(Frame::Asking { ticket, .. }), Place::First) => Some(ticket),
        (Ok(Frame::Asking { asking, .. }), Place::Second) => Some(asking),
        _ => None,
    }
}

// Whichever word is made of these pieces, if both are there.
fn pair<'a>(first: Option<&'a [u8]>, second: Option<&'a [u8]>) -> Option<(&'a [u8], &'a [u8])> {
    Some((first?, second?))
}

impl Town {
    // The word with this number.
    fn word(&self, number: u64) -> Option<&Word> {
        let before = number.checked_sub(1)?;
        self.words.get(usize::try_from(before).ok()?)
    }

    // A lock of a word.
    fn piece(&self, piece: Piece) -> Option<&[u8]> {
        lock_in(self.word(piece.word)?, piece.place)
    }

    // A word or a piece that outsiders made: it goes nowhere until it is brought.
    fn made(&mut self, out: &mut Text, bytes: Vec<u8>, piece: bool) -> Result<(), AllocError> {
        let number = self.words.len() as u64 + 1;
        say::word(out, number, None, None, &bytes)?;
        self.words.push(Word {
            from: None,
            bytes,
            piece,
        })?;
        Ok(())
    }

    // Brings a word to a side, once more or for the first time.
    pub(crate) fn repeat(
        &mut self,
        out: &mut Text,
        word: u64,
        side: Side,
    ) -> Result<(), AllocError> {
        if !self.has(side) {
            return say::line_fault(out);
        }
        let Some(word) = self.word(word) else {
            return say::line_fault(out);
        };
        let from = word.from;
        let copy = Vec::from_slice(self.heap, &word.bytes)?;
        let mail = self.bring(out, from, &copy, side)?;
        self.deliver(out, mail)
    }

    // The frame of a word of pieces, if they are all there.
    fn frame(&self, join: Join) -> Option<Frame<'_>> {
        match join {
            Join::Login { reader, lock } => {
                let lock = self.piece(lock)?;
                Some(Frame::Login { reader, lock })
            }
            Join::Letter { ticket, letter } => {
                let (ticket, letter) = pair(self.piece(ticket), self.piece(letter))?;
                Some(Frame::TicketAndLetter { ticket, letter })
            }
            Join::Asking { ticket, asking } => {
                let (ticket, asking) = pair(self.piece(ticket), self.piece(asking))?;
                Some(Frame::Asking { ticket, asking })
            }
        }
    }

    // A new word from locks of others, if they are there and fit.
    // A `match`: a lock that does not fit is told as a fault, want of memory alone is an error.
    pub(crate) fn join(&mut self, out: &mut Text, join: Join) -> Result<(), AllocError> {
        let Some(frame) = self.frame(join) else {
            return say::line_fault(out);
        };
        match write_word(self.heap, frame) {
            Ok(bytes) => self.made(out, bytes, false),
            Err(Unwritten::LockLength) => say::line_fault(out),
            Err(Unwritten::NoMemory) => Err(AllocError),
        }
    }

    // A lock, as a piece of its own, with the outsiders' own drawn bytes.
    pub(crate) fn lock(&mut self, out: &mut Text, lock: NewLock<'_>) -> Result<(), AllocError> {
        if self.outsiders.count() < 16 {
            return say::line_fault(out);
        }
        let within = hex_bytes(self.heap, lock.inside)?;
        let salt = take(&mut self.outsiders);
        let mut bytes = Vec::new(self.heap);
        append_lock(lock.kind, &lock.key.0, &salt, &within, &mut bytes)?;
        self.made(out, bytes, true)
    }

    // What a lock has inside.
    pub(crate) fn unlock(&mut self, out: &mut Text, opening: Opening) -> Result<(), AllocError> {
        let Some(lock) = self.piece(opening.lock) else {
            return say::line_fault(out);
        };
        let mut word = Vec::from_slice(self.heap, lock)?;
        match open_in_place(opening.kind, &opening.key.0, &mut word) {
            Ok(()) => say::inside(out, inside(&word)),
            Err(_) => out.plain(b"shut\n"),
        }
    }

    // Any bytes as a word.
    pub(crate) fn bytes(&mut self, out: &mut Text, hex: &[u8]) -> Result<(), AllocError> {
        let bytes = hex_bytes(self.heap, hex)?;
        self.made(out, bytes, false)
    }
}
