// Memory, accounts and drawn bytes held by value, beneath the decisions' traits.
#![tactic(auto)]

mod cut;
mod memory;
mod register;
mod supply;

pub use cut::Cut;
pub use memory::Held;
pub use register::Register;
pub use supply::{NotAdded, Supply};
