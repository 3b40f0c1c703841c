// The house over bytes: it hears words, and answers by its decisions.
#![tactic(auto)]

mod heard;
mod house;
mod reading;

pub use heard::{Event, Heard};
pub use house::House;
