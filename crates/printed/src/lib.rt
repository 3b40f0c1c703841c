// Text that is printed, written word by word: bytes as they are, what a value displays, and hex.
#![tactic(auto)]

mod text;
mod write;

pub use text::Text;
