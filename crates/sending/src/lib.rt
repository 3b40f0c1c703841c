// What the house and the services send: the words around the locks that they make, and what they note beside.
#![tactic(auto)]

mod heard;
mod word;

pub use heard::{Heard, Sent};
pub use word::{grant_word, receipt_word, refusal_word, seal_letter, seal_receipt, seal_ticket};
