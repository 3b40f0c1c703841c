// What is remembered of things done, in bytes, and as the payload of a half.
#![tactic(auto)]

mod bytes;
mod format;

pub use bytes::{compose, count_in, highest_at, load};
pub use format::Entries;
