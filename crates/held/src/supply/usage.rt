// How drawn bytes held by value are used and added to.
ghost use Rattle.held.specs.Supply.{Adds, unused};
ghost use Rattle.std.specs.Prelude.{◌≡◌, []};

use super::{NotAdded, Supply};
use parts::Drawn;
use std::alloc::Global;

// The most that is held.
const MOST: usize = 1_048_576;

impl Supply {
    // None yet.
    pub fn new(heap: Global) -> Supply
        ensures { unused result ≡ [] }
    {
        Supply {
            bytes: Vec::new(heap),
            used: 0,
        }
    }

    // Adds bytes behind those that are left; what is used up goes.
    pub fn add(&mut self, heap: Global, more: &[u8]) -> Result<(), NotAdded>
        ensures { Adds (unused self.old) more.now result (unused self.new) }
    {
        if more.len() > MOST || self.count() > MOST - more.len() {
            return Err(NotAdded::TooMany);
        }
        let mut bytes = Vec::from_slice(heap, &self.bytes[self.used..])?;
        bytes.extend_from_slice(more)?;
        self.bytes = bytes;
        self.used = 0;
        Ok(())
    }
}

impl Drawn for Supply {
    ghost left = { λ s. unused s };

    fn count(&self) -> usize {
        self.bytes.len() - self.used
    }

    fn fill(&mut self, out: &mut [u8]) {
        let end = self.used + out.len();
        out.copy_from_slice(&self.bytes[self.used..end]);
        self.used = end;
    }
}
