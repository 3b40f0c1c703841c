// The two halves of a device.
// Not the Place of a script's line, which is one of a word's two locks.
#[derive(Clone, Copy)]
pub enum Which {
    First,
    Second,
}
