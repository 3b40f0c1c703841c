// Locks made in a memory that is lent.
ghost use Rattle.std.specs.Prelude.{◌≡◌, ◌+◌, ◌<◌, length};
ghost use Rattle.locked.specs.Locked.{lock_of, ours};
ghost use Rattle.seal.specs.Kind.{number_of};
ghost use Rattle.wire.specs.Word.{lock_bytes};

use contents::Inside;
use parts::Lock;
use seal::seal_in_place;

// Makes a lock in a memory of its length.
pub fn lock_into<T: Inside>(lock: &Lock<T>, out: &mut [u8])
    requires { length out.old ≡ 32 + T.len lock.now.inside }
    ensures { out.new ≡ lock_of T.written (number_of T.KIND) ours lock.now }
{
    let end = out.len() - 16;
    out[0..16].copy_from_slice(&lock.salt.0);
    lock.inside.write(&mut out[16..end]);
    let _ = seal_in_place(T::KIND, &lock.key.0, out);
}

// Makes a lock with its length before it, as it stands in a word, in a memory of just that length.
pub fn frame_into<T: Inside>(lock: &Lock<T>, out: &mut [u8])
    requires { (length out.old ≡ 34 + T.len lock.now.inside) × (length out.old < 65538) }
    ensures { out.new ≡ lock_bytes (lock_of T.written (number_of T.KIND) ours lock.now) }
{
    let len = (out.len() - 2) as u16;
    out[0..2].copy_from_slice(&len.to_be_bytes());
    lock_into(lock, &mut out[2..]);
}
