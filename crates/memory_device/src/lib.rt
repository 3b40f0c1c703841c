// A device in memory, whose writes can be made to fail or to be cut.
#![tactic(auto)]

mod device;

pub use device::{Ends, MemoryDevice};
