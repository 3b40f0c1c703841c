// A side that hears askings: its number, its lag, its tick, and until when it waits.

// The house or a service. It does nothing at ticks below `wake`.
#[derive(Clone, Copy)]
pub struct Side {
    pub number: u16,
    pub lag: u64,
    pub now: u64,
    pub wake: u64,
}
