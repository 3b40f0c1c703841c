// What a service decides on an opened ticket and asking, and what it remembers against repeating.
#![tactic(auto)]

mod answer;
mod decide;
mod list;
mod memory;
mod side;
mod start;

pub use answer::{Deed, Done};
pub use decide::is_nobody;
pub use list::{forget, highest_in, live_in, remember, stands_in};
pub use memory::{Memory, ROOM};
pub use side::Side;
