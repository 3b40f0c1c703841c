// Bytes turned by the key stream, where they stand.
ghost use Rattle.std.specs.Prelude.{◌≡◌, ◌≤◌, length, bit_xor};
ghost use Rattle.std.specs.Simd.Lanes.{zip2};
ghost use Rattle.cipher.specs.ChaCha20.{next, later, blocks_of, turned, block as block_of, chacha20 as turned_by};

use crate::core_block::State;

// XORs each byte with the byte of the key stream at its place.
// Not by `zip`: once the borrow of an `iter_mut` in it is over, a proof knows no byte.
fn xor(bytes: &mut [u8], key: &[u8; 64])
    requires { length bytes.old ≤ 64 }
    ensures { bytes.new ≡ zip2 bit_xor bytes.old key.now }
{
    for (i, byte) in bytes.iter_mut().enumerate() {
        *byte ^= key[i];
    }
}

impl State {
    // Turns a block of bytes, or what is left of one, and goes on to the next.
    fn turn_block(&mut self, bytes: &mut [u8])
        requires { length bytes.old ≤ 64 }
        ensures bytes { bytes.new ≡ zip2 bit_xor bytes.old (block_of self.old.words) }
        ensures state { self.new.words ≡ next self.old.words }
    {
        xor(bytes, &self.block());
        self.words[12] = self.words[12].wrapping_add(1);
    }

    // Turns the bytes by the key stream from this state on, and leaves the state after the last block used.
    // By places: once `chunks_mut` is over, a proof knows the length of what it lent, and no byte.
    pub fn turn(&mut self, bytes: &mut [u8])
        ensures bytes { bytes.new ≡ turned self.old.words bytes.old }
        ensures state { self.new.words ≡ later (blocks_of (length bytes.old)) self.old.words }
    {
        let length = bytes.len();
        for n in 0..length.div_ceil(64) {
            self.turn_block(&mut bytes[64 * n..length.min(64 * n + 64)]);
        }
    }
}

// Turns the bytes by the key stream of the key, the nonce and the counter: the same call turns them back.
pub fn chacha20(key: &[u8; 32], nonce: &[u8; 12], counter: u32, bytes: &mut [u8])
    ensures bytes { bytes.new ≡ turned_by key.now counter nonce.now bytes.old }
    ensures back { turned_by key.now counter nonce.now bytes.new ≡ bytes.old }
{
    let mut state = State::new(key, nonce, counter);
    state.turn(bytes);
}
