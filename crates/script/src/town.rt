// A town: its settings, the tick and who there is.
use commands::line::Settings;
use roll::Roll;

pub mod acts;
mod roll;
pub mod shows;

const MAX_READERS: usize = 16;

const MAX_SERVICES: usize = 8;

// A town that is played by its script, line by line.
#[derive(Drop)]
pub struct Town {
    // None until the first line.
    settings: Option<Settings>,
    tick: u64,
    readers: Roll<MAX_READERS>,
    services: Roll<MAX_SERVICES>,
}

// What came of a line. The fault stands among the answers, since each of the six is what is printed of a line.
#[derive(Clone, Copy)]
pub enum Answer {
    // It was empty or a comment.
    Silent,
    // The town is there.
    Town { tick: u64, life: u64, lag: u64 },
    // That reader is there.
    Reader(u16),
    // That service is there.
    Service(u16),
    // It is that tick.
    Tick(u64),
    // Fault 13, and nothing changed.
    Fault,
}
