// Drawn bytes held by value.
ghost use Rattle.held.specs.declared.supply.NotAdded.TheVariants.{NoMemory};
ghost use Rattle.std.specs.Prelude.{◌≡◌, ◌≤◌, vec_len};

use std::alloc::AllocError;

mod usage;

// Bytes, of which the first `used` are used up.
#[derive(Drop)]
pub struct Supply {
    bytes: Vec<u8>,
    used: usize,
    ghost within: { used ≤ vec_len bytes },
}

// Why drawn bytes are not added: they would be more than can be held, or there is no memory.
#[derive(Clone, Copy)]
pub enum NotAdded {
    TooMany,
    NoMemory,
}

impl From<AllocError> for NotAdded {
    ghost from_gives = { λ _ e. e ≡ NoMemory };

    fn from(_: AllocError) -> NotAdded {
        NotAdded::NoMemory
    }
}
