// Two strings of bytes compared, and a digest as a number.
ghost use Rattle.std.specs.Prelude.{◌≡◌, ℕ, bit_or, bit_xor, take};
ghost use Rattle.std.specs.List.{fold, zip};
ghost use Rattle.seal.specs.Lock.{same, digest as digest_of};

use hash::Hasher;

// The bits in which sixteen bytes differ from others. Every byte is looked at, whatever came before.
fn difference(a: &[u8; 16], b: &[u8; 16]) -> u8
    ensures { result ≡ fold (λ d (p : ℕ × ℕ). bit_or d (bit_xor p.0 p.1)) 0 (zip a.now b.now) }
{
    a.iter().zip(b).fold(0, |d, (x, y)| d | (x ^ y))
}

// Whether sixteen bytes are the same as others.
pub fn same_sum(a: &[u8; 16], b: &[u8; 16]) -> bool
    ensures { result ≡ same a.now b.now }
{
    difference(a, b) == 0
}

// The first sixteen bytes of a digest or of a code.
pub fn front(code: &[u8; 32]) -> [u8; 16]
    ensures { result ≡ take 16 code.now }
{
    *code.first_chunk().unwrap()
}

// The first sixteen bytes of SHA-256 of a key and a number, high byte first.
pub fn digest(key: &[u8; 32], number: &[u8; 16]) -> u128
    ensures { result ≡ digest_of key.now number.now }
{
    let mut hasher = Hasher::new();
    hasher.update(key);
    hasher.update(number);
    u128::from_be_bytes(front(&hasher.finish()))
}
