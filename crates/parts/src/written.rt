// That a device did not write.
ghost use Rattle.parts.specs.declared.fault.Fault.TheVariants.{NotNow};
ghost use Rattle.std.specs.Prelude.{◌≡◌};

use super::fault::Fault;

// A device did not write: what was to be written does not count, and all is as it was.
#[derive(Clone, Copy)]
pub struct NotWritten;

impl From<NotWritten> for Fault {
    ghost from_gives = { λ _ f. f ≡ NotNow };

    fn from(_: NotWritten) -> Fault {
        Fault::NotNow
    }
}
