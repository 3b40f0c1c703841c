// The state of ChaCha20 and the 64 bytes that it gives.
ghost use Rattle.std.specs.Prelude.{◌≡◌, ◌+◌, ◌<◌, [], ◌∷◌, length};
ghost use Rattle.cipher.specs.ChaCha20.{quarter, inner, rounds, serialized, setup, word, block as block_of};

// Four words of constants, eight of the key, the counter, and three of the nonce.
#[derive(Clone, Copy)]
pub struct State {
    pub(crate) words: [u32; 16],
}

// QUARTERROUND of four words.
fn quarter_round(a: u32, b: u32, c: u32, d: u32) -> [u32; 4]
    ensures { result ≡ quarter 0 1 2 3 (a ∷ b ∷ c ∷ d ∷ []) }
{
    let a = a.wrapping_add(b);
    let d = (d ^ a).rotate_left(16);
    let c = c.wrapping_add(d);
    let b = (b ^ c).rotate_left(12);
    let a = a.wrapping_add(b);
    let d = (d ^ a).rotate_left(8);
    let c = c.wrapping_add(d);
    let b = (b ^ c).rotate_left(7);
    [a, b, c, d]
}

// A column round and a diagonal round; the state's rows are a, b, c and d.
fn inner_block(s: [u32; 16]) -> [u32; 16]
    ensures { result ≡ inner s }
{
    let [
        a0,
        a1,
        a2,
        a3,
        b0,
        b1,
        b2,
        b3,
        c0,
        c1,
        c2,
        c3,
        d0,
        d1,
        d2,
        d3,
    ] = s;
    let [a0, b0, c0, d0] = quarter_round(a0, b0, c0, d0);
    let [a1, b1, c1, d1] = quarter_round(a1, b1, c1, d1);
    let [a2, b2, c2, d2] = quarter_round(a2, b2, c2, d2);
    let [a3, b3, c3, d3] = quarter_round(a3, b3, c3, d3);
    let [a0, b1, c2, d3] = quarter_round(a0, b1, c2, d3);
    let [a1, b2, c3, d0] = quarter_round(a1, b2, c3, d0);
    let [a2, b3, c0, d1] = quarter_round(a2, b3, c0, d1);
    let [a3, b0, c1, d2] = quarter_round(a3, b0, c1, d2);
    [
        a0, a1, a2, a3, b0, b1, b2, b3, c0, c1, c2, c3, d0, d1, d2, d3,
    ]
}

// The working state after the ten double rounds.
// A counted `for`, as the standard writes the ten double rounds.
fn worked(s: &[u32; 16]) -> [u32; 16]
    ensures { result ≡ rounds 10 s.now }
{
    let mut w = *s;
    for _round in 0..10usize {
        let next = inner_block(w);
        w = next;
    }
    w
}

// The bytes of the sums of two states' words, low byte first.
// Written by place: once `as_chunks_mut` is over, a proof knows no byte.
// Not one with the bytes of a hash value: it adds two states, and writes low byte first.
fn bytes_of(s: &[u32; 16], w: &[u32; 16]) -> [u8; 64]
    ensures { result ≡ serialized 16 s.now w.now }
{
    let mut bytes = [0u8; 64];
    for (i, word) in w.iter().enumerate() {
        bytes[4 * i..4 * i + 4].copy_from_slice(&word.wrapping_add(s[i]).to_le_bytes());
    }
    bytes
}

// The word of four bytes from `i` on, low byte first.
// By its place, as the standard lays the state out: cut into chunks of four, the key would say no more and prove longer.
fn word_at(bytes: &[u8], i: usize) -> u32
    requires { i + 3 < length bytes.now }
    ensures { result ≡ word bytes.now i }
{
    u32::from_le_bytes([bytes[i], bytes[i + 1], bytes[i + 2], bytes[i + 3]])
}

impl State {
    // Before the first block of the key and the nonce, or another that the counter tells.
    pub fn new(key: &[u8; 32], nonce: &[u8; 12], counter: u32) -> State
        ensures { result.words ≡ setup key.now counter nonce.now }
    {
        State {
            words: [
                0x61707865,
                0x3320646e,
                0x79622d32,
                0x6b206574,
                word_at(key, 0),
                word_at(key, 4),
                word_at(key, 8),
                word_at(key, 12),
                word_at(key, 16),
                word_at(key, 20),
                word_at(key, 24),
                word_at(key, 28),
                counter,
                word_at(nonce, 0),
                word_at(nonce, 4),
                word_at(nonce, 8),
            ],
        }
    }

    // The 64 bytes of the key stream that this state gives.
    pub fn block(&self) -> [u8; 64]
        ensures { result ≡ block_of self.now.words }
    {
        bytes_of(&self.words, &worked(&self.words))
    }
}
