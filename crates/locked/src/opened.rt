// Locks opened with a key as their kind, and read.
ghost use Rattle.std.specs.Prelude.{◌≡◌};
ghost use Rattle.locked.specs.Locked.{inside_in, ours};
ghost use Rattle.locked.specs.Opened.{Copied, Opened};
ghost use Rattle.seal.specs.Kind.{number_of};
ghost use Rattle.seal.specs.Lock.{opens};

use crate::unopened::Unopened;
use contents::Inside;
use parts::Key;
use seal::{Kind, inside, open_in_place};
use std::alloc::Global;

// A copy of a lock, with what is inside in its place.
fn opened_copy(heap: Global, kind: Kind, key: &Key, lock: &[u8]) -> Result<Vec<u8>, Unopened>
    ensures { Copied (opens (number_of kind) key.now.0 lock.now) result }
{
    let mut copy = Vec::from_slice(heap, lock)?;
    open_in_place(kind, &key.0, copy.as_mut_slice())?;
    Ok(copy)
}

// What stands in a lock of its kind.
pub fn open<T: Inside>(heap: Global, key: &Key, lock: &[u8]) -> Result<T, Unopened>
    ensures { Opened (inside_in T.read_in (number_of T.KIND) ours key.now lock.now) result }
{
    let copy = opened_copy(heap, T::KIND, key, lock)?;
    let value = T::read(inside(copy.as_slice()))?;
    Ok(value)
}
