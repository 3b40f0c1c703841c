// A half in bytes: turn (8), payload, and the sum of all before it (16).
ghost use Rattle.std.specs.Prelude.{◌≡◌};
ghost use Rattle.halves.specs.Half.{blank, decoded, is_zero, sum_of};

use super::format::Format;
use hash::sha256;

// What a half has besides its payload.
pub const AROUND: usize = 24;

// A good half: its turn, and how many bytes its payload has.
// A length and no bytes: the payload stays where it is, on the device.
#[derive(Clone, Copy)]
pub struct Half {
    pub turn: u64,
    pub len: usize,
}

// The first 16 bytes of SHA-256.
pub(crate) fn sum_of(bytes: &[u8]) -> [u8; 16]
    ensures { result ≡ sum_of bytes.now }
{
    let digest = sha256(bytes);
    *digest.first_chunk().unwrap()
}

// Nothing but zeros?
pub(crate) fn is_zero(bytes: &[u8]) -> bool
    ensures { result ≡ is_zero bytes.now }
{
    bytes.iter().all(|byte| *byte == 0)
}

// Is it too short for a half, or nothing but zeros?
fn is_blank(block: &[u8]) -> bool
    ensures { result ≡ blank block.now }
{
    block.len() < AROUND || is_zero(block)
}

// The half at the front of a block, if it is not junk.
pub fn decode<F: Format>(format: &F, block: &[u8]) -> Option<Half>
    ensures { result ≡ decoded (F.measured format.now) block.now }
{
    if is_blank(block) {
        return None;
    }
    let (turn, rest) = block.split_first_chunk::<8>()?;
    let len = format.measure(rest)?;
    let sum = rest.get(len..)?.first_chunk::<16>()?;
    let half = Half {
        turn: u64::from_be_bytes(*turn),
        len,
    };
    (*sum == sum_of(&block[..8 + len])).then_some(half)
}
