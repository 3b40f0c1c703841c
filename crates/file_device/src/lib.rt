// A device over a file: two blocks, the first before the second.
#![tactic(auto)]

mod device;

pub use device::FileDevice;
