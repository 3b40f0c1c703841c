// What a write that a crash cuts leaves.

// What stood there before, what was written, or junk.
#[derive(Clone, Copy)]
pub enum Cut<T> {
    Old,
    New(T),
    Junk,
}
