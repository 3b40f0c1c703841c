// ChaCha20: bytes XORed, where they stand, with the key stream of a key, a nonce and a counter.
#![tactic(auto)]

mod core_block;
mod turning;

pub use core_block::State;
pub use turning::chacha20;
