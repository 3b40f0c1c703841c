// SHA-256, one block after another: the schedule, the rounds and the hash value.
ghost use Rattle.std.specs.Prelude.{◌≡◌, ℕ, ◌+◌, ◌/◌, ◌%◌, ◌^◌, ◌<◌, List, take, drop, bit_xor, slice_set};
ghost use Rattle.std.specs.List.{fold};
ghost use Rattle.std.specs.Int.{w32, rotate_right};
ghost use Rattle.hash.specs.Sha256.{ch, maj, ks, words, next, schedule, round as rounded, rounds, compressed};

// The constants of the 64 rounds.
const K: [u32; 64] = [
    0x428a2f98, 0x71374491, 0xb5c0fbcf, 0xe9b5dba5, 0x3956c25b, 0x59f111f1, 0x923f82a4, 0xab1c5ed5,
    0xd807aa98, 0x12835b01, 0x243185be, 0x550c7dc3, 0x72be5d74, 0x80deb1fe, 0x9bdc06a7, 0xc19bf174,
    0xe49b69c1, 0xefbe4786, 0x0fc19dc6, 0x240ca1cc, 0x2de92c6f, 0x4a7484aa, 0x5cb0a9dc, 0x76f988da,
    0x983e5152, 0xa831c66d, 0xb00327c8, 0xbf597fc7, 0xc6e00bf3, 0xd5a79147, 0x06ca6351, 0x14292967,
    0x27b70a85, 0x2e1b2138, 0x4d2c6dfc, 0x53380d13, 0x650a7354, 0x766a0abb, 0x81c2c92e, 0x92722c85,
    0xa2bfe8a1, 0xa81a664b, 0xc24b8b70, 0xc76c51a3, 0xd192e819, 0xd6990624, 0xf40e3585, 0x106aa070,
    0x19a4c116, 0x1e376c08, 0x2748774c, 0x34b0bcb5, 0x391c0cb3, 0x4ed8aa4a, 0x5b9cca4f, 0x682e6ff3,
    0x748f82ee, 0x78a5636f, 0x84c87814, 0x8cc70208, 0x90befffa, 0xa4506ceb, 0xbef9a3f7, 0xc67178f2,
];

// The hash value before the first block.
pub const START: [u32; 8] = [
    0x6a09e667, 0xbb67ae85, 0x3c6ef372, 0xa54ff53a, 0x510e527f, 0x9b05688c, 0x1f83d9ab, 0x5be0cd19,
];

// Takes each bit of `y` where `x` has one, and else that of `z`.
fn ch(x: u32, y: u32, z: u32) -> u32
    ensures { result ≡ ch x y z }
{
    (x & y) ^ (!x & z)
}

// Takes each bit that most of the three words have.
fn maj(x: u32, y: u32, z: u32) -> u32
    ensures { result ≡ maj x y z }
{
    (x & y) ^ (x & z) ^ (y & z)
}

// Three rotations of a word, XORed.
fn big_sigma<const A: u32, const B: u32, const C: u32>(x: u32) -> u32
    ensures { result ≡ bit_xor (bit_xor (rotate_right w32 x A) (rotate_right w32 x B)) (rotate_right w32 x C) }
{
    x.rotate_right(A) ^ x.rotate_right(B) ^ x.rotate_right(C)
}

// Two rotations and a shift of a word, XORed.
fn small_sigma<const A: u32, const B: u32, const C: u32>(x: u32) -> u32
    ensures { result ≡ bit_xor (bit_xor (rotate_right w32 x A) (rotate_right w32 x B)) (x / 2 ^ (C % 32)) }
{
    x.rotate_right(A) ^ x.rotate_right(B) ^ x.wrapping_shr(C)
}

// One round of the working variables a to h, with its constant and its word of the schedule.
fn round(s: [u32; 8], k: u32, w: u32) -> [u32; 8]
    ensures { result ≡ rounded k w s }
{
    let [a, b, c, d, e, f, g, h] = s;
    let t1 = h
        .wrapping_add(big_sigma::<6, 11, 25>(e))
        .wrapping_add(ch(e, f, g))
        .wrapping_add(k)
        .wrapping_add(w);
    let t2 = big_sigma::<2, 13, 22>(a).wrapping_add(maj(a, b, c));
    [t1.wrapping_add(t2), a, b, c, d.wrapping_add(t1), e, f, g]
}

// Eight rounds, with eight neighbours of the constants and of the schedule.
// Written out: as a loop, SHA-256 takes a quarter longer, since the variables do not stay where they are.
fn eight_rounds(s: [u32; 8], k: &[u32; 8], w: &[u32; 8]) -> [u32; 8]
    ensures { (n : ℕ) (v t : List ℕ) → k.now ≡ take 8 (drop n ks) → w.now ≡ take 8 (drop n v) → s ≡ rounds n v t → result ≡ rounds (n + 8) v t }
{
    let s = round(s, k[0], w[0]);
    let s = round(s, k[1], w[1]);
    let s = round(s, k[2], w[2]);
    let s = round(s, k[3], w[3]);
    let s = round(s, k[4], w[4]);
    let s = round(s, k[5], w[5]);
    let s = round(s, k[6], w[6]);
    round(s, k[7], w[7])
}

// The 64 rounds from the working variables `state`, with the words of the schedule `w`.
fn rounds_of(state: &[u32; 8], w: &[u32; 64]) -> [u32; 8]
    ensures { result ≡ rounds 64 w.now state.now }
{
    let constants = K.as_chunks::<8>().0;
    let schedule = w.as_chunks::<8>().0;
    let mut s = *state;
    for (k, words) in constants.iter().zip(schedule) {
        let next = eight_rounds(s, k, words);
        s = next;
    }
    s
}

// The sixteen words of a block, at the front of a schedule.
fn words_of(block: &[u8; 64]) -> [u32; 64]
    ensures { take 16 result ≡ words 16 block.now }
{
    let mut w = [0u32; 64];
    for (i, bytes) in block.as_chunks::<4>().0.iter().enumerate() {
        w[i] = u32::from_be_bytes(*bytes);
    }
    w
}

// Makes the word at n + 16 of the schedule.
fn extend(w: &mut [u32; 64], n: usize)
    requires { n < 48 }
    ensures { w.new ≡ slice_set w.old (n + 16) (next n w.old) }
{
    w[n + 16] = small_sigma::<17, 19, 10>(w[n + 14])
        .wrapping_add(w[n + 9])
        .wrapping_add(small_sigma::<7, 18, 3>(w[n + 1]))
        .wrapping_add(w[n]);
}

// The message schedule of a block: its sixteen words, and 48 made of those before them.
// Four in a turn, since each needs the last but one: with one in a turn, SHA-256 takes 8 % longer.
fn schedule_of(block: &[u8; 64]) -> [u32; 64]
    ensures { result ≡ schedule block.now }
{
    let mut w = words_of(block);
    for t in 0..12usize {
        extend(&mut w, 4 * t);
        extend(&mut w, 4 * t + 1);
        extend(&mut w, 4 * t + 2);
        extend(&mut w, 4 * t + 3);
    }
    w
}

// The hash value after one more block.
pub fn compress(state: &mut [u32; 8], block: &[u8; 64])
    ensures { state.new ≡ compressed state.old block.now }
{
    let worked = rounds_of(state, &schedule_of(block));
    for (i, part) in state.iter_mut().enumerate() {
        *part = worked[i].wrapping_add(*part);
    }
}

// The hash value after a row of blocks.
pub fn absorb(state: &mut [u32; 8], blocks: &[[u8; 64]])
    ensures { state.new ≡ fold compressed state.old blocks.now }
{
    for block in blocks {
        compress(state, block);
    }
}
