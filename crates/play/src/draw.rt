// The drawn bytes of a side of the town: the front of a ChaCha20 stream.
use cipher::chacha20;
use held::Supply;
use parts::Key;
use std::alloc::{AllocError, Global};

// How many bytes a side of the town has.
const DRAWN: usize = 262_208;

// The stream of the house's own key, and the outsiders'.
// Both are numbers above those of all principals, since a stream is drawn by a number, as its nonce.
pub(crate) const HOUSE_KEY: u16 = 65_534;

pub(crate) const OUTSIDERS: u16 = 65_535;

// A side's number as a nonce, high byte first.
fn nonce(number: u16) -> [u8; 12] {
    let [high, low] = number.to_be_bytes();
    [0, 0, 0, 0, 0, 0, 0, 0, 0, 0, high, low]
}

// The drawn bytes of a side.
pub(crate) fn stream(heap: Global, seed: &Key, number: u16) -> Result<Supply, AllocError> {
    let mut bytes = vec![in heap; 0u8; DRAWN]?;
    chacha20(&seed.0, &nonce(number), 0, bytes.as_mut_slice());
    let mut supply = Supply::new(heap);
    supply.add(heap, &bytes).map_err(|_| AllocError)?;
    Ok(supply)
}

// The house's own key: the first 32 bytes of a stream of its own.
pub(crate) fn house_key(seed: &Key) -> Key {
    let mut bytes = [0u8; 32];
    chacha20(&seed.0, &nonce(HOUSE_KEY), 0, &mut bytes);
    Key(bytes)
}
