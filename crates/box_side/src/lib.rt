// A reader's box over bytes: its reader's lines and the words of the line in, words for the line out. What it does is
// what the decisions of `box_rules` say; it frames, opens, locks and writes. Want of memory and what is wrong leave a box as it was.
#![tactic(auto)]

mod hear;
mod open;
mod reader_box;
mod tell;
mod ticket;
mod told;
mod want;

pub use reader_box::{NotMade, ReaderBox};
pub use ticket::TicketBytes;
pub use told::{NotDone, Sent, Show, Told};
