// A lock made at the end of a word under way.
ghost use Rattle.std.specs.Prelude.{◌≡◌, ℕ, ◌≤◌, List, ◌++◌, length, take, drop, replicate, is_ok, if◌then◌else◌, vec_len, OnOk};
ghost use Rattle.seal.specs.Kind.{number_of};
ghost use Rattle.seal.specs.Lock.{lock, sealed};

use crate::kind::Kind;
use crate::locks::seal_in_place;
use std::alloc::AllocError;

// Appends the drawn bytes, the inside, and room for the sum.
// Here and in `append_lock` the drawn bytes and the inside come in the order in which a lock has them.
fn lay(drawn: &[u8; 16], inside: &[u8], out: &mut Vec<u8>) -> Result<(), AllocError>
    ensures front { (more : List ℕ) × (out.new.items ≡ out.old.items ++ more) }
    ensures long { vec_len out.old ≤ vec_len out.new }
    ensures made { OnOk result (out.new.items ≡ out.old.items ++ (drawn.now ++ (inside.now ++ replicate 16 0))) }
{
    out.extend_from_slice(drawn)?;
    out.extend_from_slice(inside)?;
    out.extend_from_slice(&[0u8; 16])
}

// Seals what stands from `at` on.
// A function and no method: all that it is told goes on to `seal_in_place`, the word from `at` on.
fn seal_from(kind: Kind, key: &[u8; 32], word: &mut [u8], at: usize)
    requires { at ≤ length word.old }
    ensures { word.new ≡ take at word.old ++ sealed (number_of kind) key.now (drop at word.old) }
{
    let _ = seal_in_place(kind, key, &mut word[at..]);
}

// Appends a lock of the kind over the inside, or leaves the word as it was where there is no memory.
// Not `?` alone: the word is cut back before the error goes on.
pub fn append_lock(
    kind: Kind,
    key: &[u8; 32],
    drawn: &[u8; 16],
    inside: &[u8],
    out: &mut Vec<u8>,
) -> Result<(), AllocError>
    ensures { out.new.items ≡ (if is_ok result then out.old.items ++ lock (number_of kind) key.now drawn.now inside.now else out.old.items) }
{
    let at = out.len();
    if let Err(e) = lay(drawn, inside, out) {
        out.truncate(at);
        return Err(e);
    }
    seal_from(kind, key, out.as_mut_slice(), at);
    Ok(())
}
