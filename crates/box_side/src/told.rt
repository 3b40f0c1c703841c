// What a box tells its reader, what it sends, and why it does nothing.
ghost use Rattle.box_side.specs.declared.told.NotDone.TheVariants as not_done;
ghost use Rattle.std.specs.Prelude.{◌≡◌};

use box_rules::Got;
use parts::{Class, Fault};
use std::alloc::AllocError;

// A word for the line, and to whom: the house, 0, or a service.
#[derive(Drop)]
pub struct Sent {
    pub to: u16,
    pub word: Vec<u8>,
}

// What is shown: it logs in, it asks by the ticket of that id, it took a ticket and asks by it, the line of that place
// was done, or a refusal.
#[derive(Clone, Copy)]
pub enum Show {
    LogsIn,
    Asks(u64),
    Takes(Got),
    Receipt(u64),
    Refused(Class),
}

// What is shown, and what goes out with it.
#[derive(Drop)]
pub struct Told {
    pub show: Show,
    pub sent: Option<Sent>,
}

// Why a box does nothing, and is as it was.
#[derive(Clone, Copy)]
pub enum NotDone {
    // what is wrong with the line or the word
    Wrong(Fault),
    // no memory
    NoMemory,
}

impl From<Fault> for NotDone {
    ghost from_gives = { λ fault why. why ≡ not_done.Wrong fault };

    fn from(fault: Fault) -> NotDone {
        NotDone::Wrong(fault)
    }
}

impl From<AllocError> for NotDone {
    ghost from_gives = { λ _ why. why ≡ not_done.NoMemory };

    fn from(_: AllocError) -> NotDone {
        NotDone::NoMemory
    }
}
