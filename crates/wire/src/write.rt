// Words written, if their locks fit.
ghost use Rattle.std.specs.Prelude.{◌≡◌, ◌<◌, true, ◌++◌, length, IfOk, OnOk, All};
ghost use Rattle.std.specs.List.{flat_map};
ghost use Rattle.wire.specs.Word.{Written, fits, lock_bytes, lock_fits, shown, write_word};

use crate::kind::WordKind;
use crate::word::{LOCK_LEAST, LOCK_MOST, Unwritten, Word};
use std::alloc::{AllocError, Global};

// Whether a lock has a length that a word can say.
fn lock_fits(lock: &[u8]) -> bool
    ensures { result ≡ lock_fits lock.now }
{
    LOCK_LEAST <= lock.len() && lock.len() <= LOCK_MOST
}

// Whether the locks of a word have their lengths.
fn word_fits(word: Word<'_>) -> bool
    ensures { result ≡ fits (shown word.entry) }
{
    match word {
        Word::Login { lock, .. } | Word::Receipt { lock } => lock_fits(lock),
        Word::TicketAndLetter { ticket, letter } => lock_fits(ticket) && lock_fits(letter),
        Word::Asking { ticket, asking } => lock_fits(ticket) && lock_fits(asking),
        Word::Refusal(_) => true,
    }
}

// Adds a lock, its length before it.
// The bound stands here and in `joined`; a type of its own would be made only to be taken apart again.
fn push_lock(out: &mut Vec<u8>, lock: &[u8]) -> Result<(), AllocError>
    requires { length lock.now < 65536 }
    ensures { OnOk result (out.new.items ≡ out.old.items ++ lock_bytes lock.now) }
{
    out.extend_from_slice(&(lock.len() as u16).to_be_bytes())?;
    out.extend_from_slice(lock)
}

// What a word says in the open, and then its locks.
fn joined(heap: Global, front: &[u8], locks: &[&[u8]]) -> Result<Vec<u8>, AllocError>
    requires { All (λ x. length x.now < 65536) locks.now }
    ensures { IfOk result (λ v. v.items ≡ front.now ++ flat_map (λ x. lock_bytes x.now) locks.now) }
{
    let mut out = Vec::from_slice(heap, front)?;
    for lock in locks {
        push_lock(&mut out, lock)?;
    }
    Ok(out)
}

// The bytes of a word whose locks fit.
// `word_fits` tells that they fit; a type that says so would be made only to be taken apart again.
fn word_bytes(heap: Global, word: Word<'_>) -> Result<Vec<u8>, AllocError>
    requires { fits (shown word) ≡ true }
    ensures { IfOk result (λ v. v.items ≡ write_word (shown word.entry)) }
{
    match word {
        Word::Login { reader, lock } => {
            let [high, low] = reader.to_be_bytes();
            joined(heap, &[WordKind::Login.number(), high, low], &[lock])
        }
        Word::TicketAndLetter { ticket, letter } => {
            joined(
                heap,
                &[WordKind::TicketAndLetter.number()],
                &[ticket, letter],
            )
        }
        Word::Asking { ticket, asking } => {
            joined(heap, &[WordKind::Asking.number()], &[ticket, asking])
        }
        Word::Receipt { lock } => joined(heap, &[WordKind::Receipt.number()], &[lock]),
        Word::Refusal(class) => {
            Vec::from_slice(heap, &[WordKind::Refusal.number(), class.number()])
        }
    }
}

// The bytes of a word, if each of its locks has 32 to 65,535 bytes.
pub fn write_word(heap: Global, word: Word<'_>) -> Result<Vec<u8>, Unwritten>
    ensures { Written (shown word.entry) result }
{
    if !word_fits(word) {
        return Err(Unwritten::LockLength);
    }
    Ok(word_bytes(heap, word)?)
}
