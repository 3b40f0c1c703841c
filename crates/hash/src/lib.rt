// SHA-256 and HMAC-SHA-256, of whole messages and of messages that come in parts.
#![tactic(auto)]

mod block;
mod keyed;
mod message;

pub use keyed::{Hmac, hmac_sha256};
pub use message::{Hasher, sha256};
