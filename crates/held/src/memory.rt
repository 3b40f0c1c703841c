// A memory held by value, with a device that writes or does not, and whose writes can be cut.
ghost use Rattle.std.specs.Prelude.{◌≤◌, vec_capacity};

use parts::Entry;

mod recall;

// What is remembered, the oldest first; room for all of it is there from the start. `writes` is a flag with nothing beside
// it: the owner tells it, and what a write answers is a Result.
#[derive(Drop)]
pub struct Held {
    entries: Vec<Entry>,
    junk: bool,
    writes: bool,
    ghost room: { 8192 ≤ vec_capacity entries },
}
