// What a box answers where nothing is wrong, and why a box does not start.
ghost use Rattle.box_rules.specs.declared.answer.NotStarted.TheVariants.{NoMemory};
ghost use Rattle.std.specs.Prelude.{◌≡◌};

use parts::{Asking, Class, Fault, Lock, Login};
use std::alloc::AllocError;

// A ticket taken: its id, for which service, and until when. It is no Pass, since the key is not shown.
#[derive(Clone, Copy)]
pub struct Got {
    pub id: u64,
    pub service: u16,
    pub until: u64,
}

// What is sent or shown. An asking goes with the ticket of that id.
#[derive(Clone, Copy)]
pub enum Answer {
    LogsIn(Lock<Login>),
    Asks(u64, Lock<Asking>),
    Takes(Got, Lock<Asking>),
    Receipt(u64),
    Shown(Class),
}

// Why a box does not start: its settings are out of range, or there is no memory.
#[derive(Clone, Copy)]
pub enum NotStarted {
    Wrong(Fault),
    NoMemory,
}

impl From<AllocError> for NotStarted {
    ghost from_gives = { λ _ e. e ≡ NoMemory };

    fn from(_: AllocError) -> NotStarted {
        NotStarted::NoMemory
    }
}
