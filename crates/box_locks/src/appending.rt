// A lock put into a word under way.
ghost use Rattle.std.specs.Prelude.{◌≡◌, ◌+◌, ◌≤◌, true, is_ok, vec_len, vec_capacity};
ghost use Rattle.box_locks.specs.Appended.{appended, asking_most, login_most};
ghost use Rattle.locked.specs.Locked.{asking_lock, lock_of, login_lock, ours};
ghost use Rattle.seal.specs.Kind.{number_of};

use contents::Inside;
use locked::frame_into;
use parts::{Asking, Lock, Login};
use std::alloc::AllocError;

// The most bytes that are appended for a login.
const LOGIN_MOST: usize = 59;

// The most bytes that are appended for an asking.
pub const ASKING_MOST: usize = 1087;

// What a lock has besides its inside, with its length.
const AROUND: usize = 34;

// Puts a lock of at most so many bytes behind what the word has so far, its length before it,
// or leaves the word as it was.
fn append<const MOST: usize, T: Inside>(out: &mut Vec<u8>, lock: &Lock<T>) -> Result<(), AllocError>
    requires { (34 + T.MOST ≤ MOST) × (MOST ≤ 65537) }
    ensures items { out.new.items ≡ appended (lock_of T.written (number_of T.KIND) ours lock.now) result out.old.items }
    ensures fits { vec_len out.old + MOST ≤ vec_capacity out.old → is_ok result ≡ true }
{
    let mut room = [0u8; MOST];
    let bytes = &mut room[..];
    let end = AROUND + lock.inside.len();
    frame_into(lock, &mut bytes[0..end]);
    out.extend_from_slice(&bytes[0..end])
}

// Puts the lock of a login behind what the word has so far, its length before it, or leaves the word as it was.
pub fn append_login(out: &mut Vec<u8>, login: &Lock<Login>) -> Result<(), AllocError>
    ensures items { out.new.items ≡ appended (login_lock ours login.now) result out.old.items }
    ensures fits { vec_len out.old + login_most ≤ vec_capacity out.old → is_ok result ≡ true }
{
    append::<LOGIN_MOST, Login>(out, login)
}

// Puts the lock of an asking behind what the word has so far, its length before it, or leaves the word as it was.
pub fn append_asking(out: &mut Vec<u8>, asking: &Lock<Asking>) -> Result<(), AllocError>
    ensures items { out.new.items ≡ appended (asking_lock ours asking.now) result out.old.items }
    ensures fits { vec_len out.old + asking_most ≤ vec_capacity out.old → is_ok result ≡ true }
{
    append::<ASKING_MOST, Asking>(out, asking)
}
