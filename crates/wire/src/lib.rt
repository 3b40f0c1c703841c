// The five words of the line, in bytes: read to the end or the first fault, and written.
#![tactic(auto)]

mod kind;
mod read;
mod word;
mod write;

pub use kind::WordKind;
pub use read::read_word;
pub use word::{Unwritten, Word};
pub use write::write_word;
