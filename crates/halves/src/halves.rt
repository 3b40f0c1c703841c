// What is known of two halves.
use super::half::Half;
use super::which::Which;

// A good half, with its place.
// It has no bytes: the payload stays where it is, on the device.
#[derive(Clone, Copy)]
pub struct Good {
    pub which: Which,
    pub half: Half,
}

// The newest good half, if one is good, and whether one is junk. Where none is good, no turn above `last` stands on the device.
// Three fields, since junk may stand beside a good half, and `last` stays what it was at the start.
#[derive(Clone, Copy)]
pub struct Halves {
    pub newest: Option<Good>,
    pub junk: bool,
    pub last: u64,
}
