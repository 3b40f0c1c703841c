// The locks that a reader's box makes, put into a word under way: of logins and of askings.
#![tactic(auto)]

mod appending;

pub use appending::{ASKING_MOST, append_asking, append_login};
