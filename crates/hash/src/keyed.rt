// HMAC-SHA-256 of a message that comes in parts, and of a whole one.
ghost use Rattle.std.specs.Prelude.{◌≡◌, ℕ, List, [], ◌++◌};
ghost use Rattle.hash.specs.Hmac.{block_key, masked, hmac};
ghost use Rattle.hash.specs.Hasher.{Holds, Keyed};

use crate::message::{Hasher, put, sha256};

// A code under way. A copy goes on from the same place, so that one key serves many messages.
#[derive(Clone, Copy)]
pub struct Hmac {
    inner: Hasher,
    outer: Hasher,
}

// The key as one block.
fn block_key(key: &[u8]) -> [u8; 64]
    ensures { result ≡ block_key key.now }
{
    let mut block = [0u8; 64];
    if key.len() > 64 {
        put(&mut block, 0, &sha256(key));
    } else {
        put(&mut block, 0, key);
    }
    block
}

// A hasher that has taken in the block, each byte XORed with `pad`.
fn hasher_of(block: &[u8; 64], pad: u8) -> Hasher
    ensures { Holds result (masked pad block.now) }
{
    let mut bytes = *block;
    for byte in &mut bytes {
        *byte ^= pad;
    }
    let mut hasher = Hasher::new();
    hasher.update(&bytes);
    hasher
}

impl Hmac {
    // Of no bytes yet, under the key.
    pub fn new(key: &[u8]) -> Hmac
        ensures { Keyed result key.now [] }
    {
        let block = block_key(key);
        Hmac {
            inner: hasher_of(&block, 0x36),
            outer: hasher_of(&block, 0x5c),
        }
    }

    // Takes in the next part of the message.
    pub fn update(&mut self, bytes: &[u8])
        ensures { (key m : List ℕ) → Keyed self.old key m → Keyed self.new key (m ++ bytes.now) }
    {
        self.inner.update(bytes);
    }

    // The code of all that was taken in.
    pub fn finish(self) -> [u8; 32]
        ensures { (key m : List ℕ) → Keyed self key m → result ≡ hmac key m }
    {
        let mut outer = self.outer;
        outer.update(&self.inner.finish());
        outer.finish()
    }
}

// The code of a whole message under the key.
pub fn hmac_sha256(key: &[u8], message: &[u8]) -> [u8; 32]
    ensures { result ≡ hmac key.now message.now }
{
    let mut mac = Hmac::new(key);
    mac.update(message);
    mac.finish()
}
