// A payload in two halves of a device, written by turns: a write that is cut never loses what the other half holds.
#![tactic(auto)]

mod device;
mod format;
mod half;
mod halves;
mod law;
mod turns;
mod which;
mod write;

pub use device::Device;
pub use format::Format;
pub use half::{AROUND, Half, decode};
pub use halves::{Good, Halves};
pub use law::laws;
pub use turns::part;
pub use which::Which;
