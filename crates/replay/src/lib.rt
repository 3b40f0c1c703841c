// The memory against repeating, on a device of two halves.
#![tactic(auto)]

mod memory;

pub use memory::ReplayMemory;
