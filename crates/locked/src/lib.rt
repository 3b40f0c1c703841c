// What stands in a lock, as a value: locks opened with a key and read, and locks made.
#![tactic(auto)]

mod both;
mod make;
mod opened;
mod unopened;

pub use both::open_both;
pub use make::{frame_into, lock_into};
pub use opened::open;
pub use unopened::Unopened;
