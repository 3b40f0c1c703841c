// The words of a line: cut at a space, and read as a decimal, as hex, as a key or as a principal's number.
#![tactic(auto)]

ghost use Rattle.std.specs.Prelude.{◌≡◌, ◌/◌, ◌≤◌, ◌==◌, ◌++◌, map, length, drop, is_some, IfOk, Some, None};
ghost use Rattle.std.specs.List.{position};
ghost use Rattle.std.specs.Option.{option_map};
ghost use Rattle.words.specs.Text.{cut_at, number_of, decimal_of, nibble_of, octet_of, all_hex, pair_octet, octets, paired, hex_of, bytes_of, fitting, put_front, key_of, principal_of, short_of};
ghost use Rattle.words.specs.Next.{Missed, Found};

use parts::Key;
use std::alloc::{AllocError, Global};

pub mod laws;

// Where the first `at` stands.
fn first(text: &[u8], at: u8) -> Option<usize>
    ensures { result ≡ position (λ b. b == at) text.now }
{
    text.iter().position(|b| *b == at)
}

// What stands before the first `at`, and what after it.
pub fn cut(text: &[u8], at: u8) -> Option<(&[u8], &[u8])>
    ensures { elim result [ None ↦ cut_at at text.now ≡ None | Some p ↦ cut_at at text.now ≡ Some (p.0.now, p.1.now) ] }
{
    let n = first(text, at)?;
    Some((&text[..n], &text[n + 1..]))
}

// The word before the first space, as `read` reads it, and what comes after.
pub fn next<T, F: FnOnce(&[u8]) -> Option<T>>(text: &[u8], read: F) -> Option<(T, &[u8])>
    requires { F.IsAlwaysCallable read }
    ensures { elim result [ None ↦ Missed F.FnOnce read text.now | Some p ↦ Found F.FnOnce read text.now p.0 p.1.now ] }
{
    let (word, rest) = cut(text, b' ')?;
    let value = read(word)?;
    Some((value, rest))
}

// A decimal with no sign and no leading zero; the largest u64 stands for all that are larger.
// That is no None, as the rules of the scripts want it.
pub fn decimal(word: &[u8]) -> Option<u64>
    ensures { result ≡ decimal_of word.now }
{
    match word {
        [] | [b'0', _, ..] => None,
        _ => number(word),
    }
}

// The number that digits write, a leading zero or not.
// A `for`, since a `try_fold` would say the same two lines in a closure.
fn number(word: &[u8]) -> Option<u64>
    ensures { result ≡ number_of word.now }
{
    let mut n = 0u64;
    for b in word {
        let digit = char::from(*b).to_digit(10)?;
        n = n.saturating_mul(10).saturating_add(u64::from(digit));
    }
    Some(n)
}

// A principal's number, 1 to 1,023.
pub fn principal(word: &[u8]) -> Option<u16>
    ensures { result ≡ principal_of word.now }
{
    match decimal(word)? {
        n @ 1..=1023 => Some(n as u16),
        _ => None,
    }
}

// A number that two bytes can hold.
pub fn short(word: &[u8]) -> Option<u16>
    ensures { result ≡ short_of word.now }
{
    u16::try_from(decimal(word)?).ok()
}

// The value of a lower-case hex digit; `to_digit` would take upper case too.
fn nibble(b: u8) -> Option<u8>
    ensures { result ≡ nibble_of b }
{
    match b {
        b'0'..=b'9' => Some(b - b'0'),
        b'a'..=b'f' => Some(b - b'a' + 10),
        _ => None,
    }
}

// Whether each byte is a lower-case hex digit.
fn all_hex(word: &[u8]) -> bool
    ensures { result ≡ all_hex word.now }
{
    word.iter().all(|b| nibble(*b).is_some())
}

// Whether a word is one or more pairs of hex digits.
fn is_paired(word: &[u8]) -> bool
    ensures { result ≡ paired word.now }
{
    !word.is_empty() && word.len() % 2 == 0 && all_hex(word)
}

// Whether a word gives bytes in hex; `-` gives none.
fn is_hex(word: &[u8]) -> bool
    ensures { result ≡ is_some (hex_of word.now) }
{
    word == b"-".as_slice() || is_paired(word)
}

// The byte that two hex digits write.
// A bad digit counts 0 and there is no Option: whoever asks for a byte has looked at all digits before.
fn octet(high: u8, low: u8) -> u8
    ensures { result ≡ octet_of high low }
{
    nibble(high).unwrap_or(0) * 16 + nibble(low).unwrap_or(0)
}

// The bytes that pairs of digits stand for, in memory of their own.
// Room for all is made first: `collect` makes it at the first byte, which costs a short word more.
fn pair_octets(heap: Global, pairs: &[[u8; 2]]) -> Result<Vec<u8>, AllocError>
    ensures { IfOk result (λ v. v.items ≡ map pair_octet pairs.now) }
{
    let mut bytes = Vec::with_capacity(heap, pairs.len())?;
    bytes.extend(pairs.iter().map(|[high, low]| octet(*high, *low)))?;
    Ok(bytes)
}

// Writes the bytes that pairs of digits stand for to the front of `out`.
fn put_octets(word: &[u8], out: &mut [u8])
    requires { length word.now / 2 ≤ length out.old }
    ensures { out.new ≡ octets word.now ++ drop (length word.now / 2) out.old }
{
    let (pairs, _) = word.as_chunks::<2>();
    // Not by `out.iter_mut().zip(pairs)`: of what an adapter of `iter_mut` wrote nothing is known.
    for (i, [high, low]) in pairs.iter().enumerate() {
        out[i] = octet(*high, *low);
    }
}

// Writes the bytes that a word gives in hex to the front of `out`, and says how many; `-` gives none.
// Where the word is no hex, or its bytes do not fit, nothing is written.
// The count stays a number: a slice of `out` would keep it lent, and what stands in it then could not be said.
pub fn hex(word: &[u8], out: &mut [u8]) -> Option<usize>
    ensures count { result ≡ option_map length (fitting (length out.old) word.now) }
    ensures after { out.new ≡ put_front out.old (fitting (length out.old) word.now) }
{
    if !is_hex(word) {
        return None;
    }
    let n = word.len() / 2;
    if n > out.len() {
        return None;
    }
    put_octets(word, out);
    Some(n)
}

// A word as it stands, where it gives bytes in hex.
pub fn hex_word(word: &[u8]) -> Option<&[u8]>
    ensures { elim result [ None ↦ hex_of word.now ≡ None | Some w ↦ hex_of word.now ≡ Some (bytes_of w.now) ] }
{
    is_hex(word).then_some(word)
}

// The bytes that a word gives in hex, in memory of their own; none where it is no hex.
pub fn hex_bytes(heap: Global, word: &[u8]) -> Result<Vec<u8>, AllocError>
    ensures { IfOk result (λ v. v.items ≡ bytes_of word.now) }
{
    if !is_hex(word) {
        return Ok(Vec::new(heap));
    }
    let (pairs, _) = word.as_chunks::<2>();
    pair_octets(heap, pairs)
}

// A key of 64 hex digits.
pub fn as_key(word: &[u8]) -> Option<Key>
    ensures { result ≡ key_of word.now }
{
    if word.len() != 64 || !all_hex(word) {
        return None;
    }
    let mut bytes = [0u8; 32];
    put_octets(word, &mut bytes);
    Some(Key(bytes))
}
