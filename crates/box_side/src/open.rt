// Which of some keys opens a lock: the first that does decides.
ghost use Rattle.box_side.specs.Box.{opens_first, under_of};
ghost use Rattle.box_side.specs.Opened.{Opens, found_in, opened_in, read_first};
ghost use Rattle.locked.specs.Locked.{ours};
ghost use Rattle.seal.specs.Kind.{number_of};
ghost use Rattle.std.specs.Prelude.{◌≡◌, IfOk};

use crate::told::NotDone;
use box_rules::Under;
use contents::Inside;
use parts::{Fault, Key};
use seal::{Kind, inside, open_in_place};
use std::alloc::{AllocError, Global};

// A key that opened a lock, and its place among those that were tried, which tells the own key from the others.
// The place stays, since what is promised of a letter names it.
#[derive(Clone, Copy)]
pub(crate) struct Found {
    pub(crate) place: usize,
    pub(crate) key: Key,
}

// A lock that stands open, with the key that opened it.
#[derive(Drop)]
pub(crate) struct Opened {
    pub(crate) found: Found,
    pub(crate) word: Vec<u8>,
}

// What a lock has inside, and the key that opened it.
#[derive(Clone, Copy)]
pub(crate) struct Unlocked<T> {
    pub(crate) found: Found,
    pub(crate) inside: T,
}

impl Found {
    // Under which key a letter opened: the own key is the first that is tried.
    pub(crate) fn under(self) -> Under
        ensures { result ≡ under_of self.place self.key }
    {
        if self.place == 0 {
            Under::Own
        } else {
            Under::Session(self.key)
        }
    }
}

// Opens a lock where it stands with the first key that opens it, and says which that is. It is no `find_map`, since its
// closure would change the word.
fn open_first(kind: Kind, keys: &[Key], word: &mut [u8]) -> Option<Found>
    ensures { found_in result word.new ≡ opens_first ours (number_of kind) 0 keys.now word.old }
{
    for (place, key) in keys.iter().enumerate() {
        if open_in_place(kind, &key.0, word).is_ok() {
            return Some(Found { place, key: *key });
        }
    }
    None
}

// Opens a copy of a lock with the first key that opens it.
fn open_copy(
    heap: Global,
    kind: Kind,
    keys: &[Key],
    lock: &[u8],
) -> Result<Option<Opened>, AllocError>
    ensures { IfOk result (λ o. opened_in o ≡ opens_first ours (number_of kind) 0 keys.now lock.now) }
{
    let mut word = Vec::from_slice(heap, lock)?;
    let found = open_first(kind, keys, word.as_mut_slice());
    Ok(found.map(|found| Opened { found, word }))
}

// What a lock of its kind has inside, and the first key that opens it.
pub(crate) fn open<T: Inside>(
    heap: Global,
    keys: &[Key],
    lock: &[u8],
) -> Result<Unlocked<T>, NotDone>
    ensures { Opens (read_first T.read_in (opens_first ours (number_of T.KIND) 0 keys.now lock.now)) result }
{
    let opened = open_copy(heap, T::KIND, keys, lock)?.ok_or(Fault::LockFails)?;
    let inside = T::read(inside(opened.word.as_slice()))?;
    Ok(Unlocked {
        found: opened.found,
        inside,
    })
}
