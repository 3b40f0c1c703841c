// A word by its parts, and why one is not written.
ghost use Rattle.std.specs.Prelude.{◌≡◌};
ghost use Rattle.wire.specs.declared.word.Unwritten.TheVariants as unwritten;

use parts::Class;
use std::alloc::AllocError;

// The fewest bytes of a lock: 16 drawn bytes, and a sum of 16.
pub(crate) const LOCK_LEAST: usize = 32;

// The most bytes of a lock: its length is two bytes.
pub(crate) const LOCK_MOST: usize = 65535;

// Why a word is not written.
#[derive(Clone, Copy)]
pub enum Unwritten {
    // a lock below 32 bytes or above 65,535
    LockLength,
    // no memory for the bytes
    NoMemory,
}

impl From<AllocError> for Unwritten {
    ghost from_gives = { λ _ why. why ≡ unwritten.NoMemory };

    fn from(_: AllocError) -> Unwritten {
        Unwritten::NoMemory
    }
}

// A word, its locks being parts of the bytes that it was read from.
#[derive(Clone, Copy)]
pub enum Word<'a> {
    Login { reader: u16, lock: &'a [u8] },
    TicketAndLetter { ticket: &'a [u8], letter: &'a [u8] },
    Asking { ticket: &'a [u8], asking: &'a [u8] },
    Receipt { lock: &'a [u8] },
    Refusal(Class),
}
