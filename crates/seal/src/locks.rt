// Sealing and opening a word where it stands: 16 drawn bytes, the inside, and 16 bytes of sum.
ghost use Rattle.std.specs.Prelude.{◌≡◌, ℕ, ◌≤◌, not, List, [], ◌∷◌, length, is_some, is_ok, Some, nat_lt};
ghost use Rattle.hash.specs.Hasher.{Keyed};
ghost use Rattle.hash.specs.Hmac.{hmac};
ghost use Rattle.seal.specs.Kind.{number_of};
ghost use Rattle.seal.specs.Purpose.{purpose_number};
ghost use Rattle.seal.specs.Lock.{turned_in, sum, fits, inside_of, opens, sealed, unsealed, OpensAgain, OpensLocks};

use crate::bytes::{front, same_sum};
use crate::kind::Kind;
use cipher::chacha20;
use hash::Hmac;

// What a code is for: the key that the inside is turned with, or the sum. No code serves both.
#[derive(Clone, Copy)]
enum Purpose {
    Key = 1,
    Sum = 2,
}

impl Purpose {
    // The number that stands at the front of what a code is of.
    fn number(self) -> u8
        ensures { result ≡ purpose_number self }
    {
        self as u8
    }
}

// What a lock has besides its inside: 16 drawn bytes and 16 bytes of sum.
pub const AROUND: usize = 32;

// A word that does not open with this key and kind.
// Not one with TooShort: opening tells only that it stays shut, sealing only that there is no room.
#[derive(Drop)]
pub struct Shut;

// A word without room for the drawn bytes and the sum.
#[derive(Drop)]
pub struct TooShort;

// The code of a purpose, a kind and more bytes, under the key that `mac` was made of.
fn code_of(mac: Hmac, purpose: Purpose, kind: Kind, body: &[u8]) -> [u8; 32]
    ensures { (key : List ℕ) → Keyed mac key [] → result ≡ hmac key (purpose_number purpose ∷ number_of kind ∷ body.now) }
{
    let mut all = mac;
    all.update(&[purpose.number(), kind.number()]);
    all.update(body);
    all.finish()
}

// The sum over the drawn bytes and the turned ones.
fn sum_of(mac: Hmac, kind: Kind, body: &[u8]) -> [u8; 16]
    ensures { (key : List ℕ) → Keyed mac key [] → result ≡ sum (number_of kind) key body.now }
{
    front(&code_of(mac, Purpose::Sum, kind, body))
}

// Whether a word has room for drawn bytes and a sum, and ends in the sum over the rest.
fn sum_fits(mac: Hmac, kind: Kind, word: &[u8]) -> bool
    ensures { (key : List ℕ) → Keyed mac key [] → result ≡ fits (number_of kind) key word.now }
{
    if word.len() < AROUND {
        return false;
    }
    let (body, given) = word.split_last_chunk().unwrap();
    same_sum(given, &sum_of(mac, kind, body))
}

// Turns what lies between the drawn bytes and the sum.
fn turn_inside(mac: Hmac, kind: Kind, word: &mut [u8])
    requires { 32 ≤ length word.old }
    ensures { (key : List ℕ) → Keyed mac key [] → word.new ≡ turned_in (number_of kind) key word.old }
{
    let code = code_of(mac, Purpose::Key, kind, &[]);
    let nonce = *word.first_chunk::<12>().unwrap();
    let end = word.len() - 16;
    chacha20(&code, &nonce, 0, &mut word[16..end]);
}

// Makes a lock of a word that has the drawn bytes and the inside in place, and room for the sum.
// This and `open_in_place` are no methods: whoever calls has the bytes of a key, not its code.
pub fn seal_in_place(kind: Kind, key: &[u8; 32], word: &mut [u8]) -> Result<(), TooShort>
    ensures word { word.new ≡ sealed (number_of kind) key.now word.old }
    ensures test { is_ok result ≡ not (nat_lt (length word.old) 32) }
{
    if word.len() < AROUND {
        return Err(TooShort);
    }
    let mac = Hmac::new(key);
    turn_inside(mac, kind, word);
    let end = word.len() - 16;
    let sum = sum_of(mac, kind, &word[0..end]);
    word[end..].copy_from_slice(&sum);
    Ok(())
}

// Opens a lock, so that what was inside stands in its place. The sum is compared before anything is turned,
// and a word that does not open is left as it was.
pub fn open_in_place(kind: Kind, key: &[u8; 32], word: &mut [u8]) -> Result<(), Shut>
    ensures word { word.new ≡ unsealed (number_of kind) key.now word.old }
    ensures test { is_ok result ≡ is_some (opens (number_of kind) key.now word.old) }
    ensures inside { (x : List ℕ) → opens (number_of kind) key.now word.old ≡ Some x → inside_of word.new ≡ x }
    ensures again { OpensAgain }
    ensures locks { OpensLocks }
{
    let mac = Hmac::new(key);
    if !sum_fits(mac, kind, word) {
        return Err(Shut);
    }
    turn_inside(mac, kind, word);
    Ok(())
}

// The part of a word between the drawn bytes and the sum: what was inside, once the word is open.
pub fn inside(word: &[u8]) -> &[u8]
    ensures { result.now ≡ inside_of word.now }
{
    if word.len() < AROUND {
        return &word[0..0];
    }
    &word[16..word.len() - 16]
}
