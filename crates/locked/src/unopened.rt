// Why something was not opened.
ghost use Rattle.std.specs.Prelude.{◌≡◌};
ghost use Rattle.locked.specs.declared.unopened.Unopened.TheVariants.{NoMemory, Wrong};
ghost use Rattle.parts.specs.declared.fault.Fault.TheVariants.{LockFails};

use parts::Fault;
use seal::Shut;
use std::alloc::AllocError;

// Why something was not opened.
#[derive(Clone, Copy)]
pub enum Unopened {
    // it does not open with this key, or can't be read
    Wrong(Fault),
    // no memory to open it in
    NoMemory,
}

impl From<Fault> for Unopened {
    ghost from_gives = { λ fault why. why ≡ Wrong fault };

    fn from(fault: Fault) -> Unopened {
        Unopened::Wrong(fault)
    }
}

impl From<Shut> for Unopened {
    ghost from_gives = { λ _ why. why ≡ Wrong LockFails };

    fn from(_: Shut) -> Unopened {
        Unopened::Wrong(Fault::LockFails)
    }
}

impl From<AllocError> for Unopened {
    ghost from_gives = { λ _ why. why ≡ NoMemory };

    fn from(_: AllocError) -> Unopened {
        Unopened::NoMemory
    }
}
