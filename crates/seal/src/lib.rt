// Locks: bytes sealed and opened with a key, each for its kind, and the digest of a key and a number.
#![tactic(auto)]

mod append;
mod bytes;
mod kind;
mod locks;

pub use append::append_lock;
pub use bytes::digest;
pub use kind::{Kind, NoKind};
pub use locks::{AROUND, Shut, TooShort, inside, open_in_place, seal_in_place};
