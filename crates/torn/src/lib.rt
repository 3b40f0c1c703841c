// A memory and accounts held by value whose next write can be cut: the side that owns them crashes then.
#![tactic(auto)]

mod device;
mod ledger;
mod memory;

pub use device::Device;
pub use ledger::{Change, Ledger};
pub use memory::Torn;
