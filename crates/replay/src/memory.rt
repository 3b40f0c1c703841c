// What is remembered, with its device.
ghost use Rattle.std.specs.Prelude.{◌≡◌, ◌≤◌, vec_len, vec_capacity};

use halves::Halves;
use parts::Entry;

mod recall;

// Entries, the oldest first, and room for a half; `junk` is what the start found, until something is recorded.
// `writes` is kept since the trait tells by it, after a recording too, whether the device wrote.
#[derive(Drop)]
pub struct ReplayMemory<D> {
    device: D,
    halves: Halves,
    junk: bool,
    writes: bool,
    entries: Vec<Entry>,
    half: Vec<u8>,
    ghost room: { 8192 ≤ vec_capacity entries },
    ghost long: { vec_len half ≡ 196634 },
}
