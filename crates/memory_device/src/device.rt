// Two blocks in memory.
ghost use Rattle.std.specs.Prelude.{◌≡◌, replicate, IfOk, is_ok, if◌then◌else◌};
ghost use Rattle.halves.specs.Blocks.{block as block_of, over, put};
ghost use Rattle.memory_device.specs.Seen.{seen};

use halves::{Device, Which};
use parts::NotWritten;
use std::alloc::{AllocError, Global};

// What is left in a block whose write became junk.
const JUNK: [u8; 26] = [255; 26];

// How writes end: told as done; or not told as done, with the old left, the new, or junk. Four words of one kind, as the tables of the tests name them.
#[derive(Clone, Copy)]
pub enum Ends {
    Done,
    Old,
    New,
    Junk,
}

// The two blocks, and how writes to them end from now on.
// Two names and no array: a device has a first and a second block, and no third.
#[derive(Drop)]
pub struct MemoryDevice {
    first: Vec<u8>,
    second: Vec<u8>,
    ends: Ends,
}

// Writes bytes at the front of a block, if it has room for them: what stands behind them stays.
fn lay(block: &mut [u8], bytes: &[u8]) -> Result<(), NotWritten>
    ensures { block.new ≡ (if is_ok result then over bytes.now block.old else block.old) }
{
    if bytes.len() > block.len() {
        return Err(NotWritten);
    }
    block[..bytes.len()].copy_from_slice(bytes);
    Ok(())
}

impl MemoryDevice {
    // Two blocks of this many bytes each, all alike; writes are done.
    pub fn filled(heap: Global, size: usize, byte: u8) -> Result<MemoryDevice, AllocError>
        ensures { IfOk result (λ m. (m.first.items ≡ replicate size byte) × (m.second.items ≡ replicate size byte)) }
    {
        let first = vec![in heap; byte; size]?;
        let second = vec![in heap; byte; size]?;
        Ok(MemoryDevice::of(first, second))
    }

    // Two blocks with these bytes; writes are done.
    pub fn of(first: Vec<u8>, second: Vec<u8>) -> MemoryDevice
        ensures first { result.first.items ≡ first.items }
        ensures second { result.second.items ≡ second.items }
    {
        MemoryDevice {
            first,
            second,
            ends: Ends::Done,
        }
    }

    // How writes end from now on.
    pub fn set_ends(&mut self, ends: Ends)
        ensures ends { self.new.ends ≡ ends }
        ensures first { self.new.first.items ≡ self.old.first.items }
        ensures second { self.new.second.items ≡ self.old.second.items }
    {
        self.ends = ends;
    }

    // Writes bytes at the front of a block, if it has room for them; the other block is as it was.
    fn lay_in(&mut self, which: Which, bytes: &[u8]) -> Result<(), NotWritten>
        ensures { seen self.new ≡ (if is_ok result then put which (over bytes.now (block_of which (seen self.old))) (seen self.old) else seen self.old) }
    {
        match which {
            Which::First => lay(self.first.as_mut_slice(), bytes),
            Which::Second => lay(self.second.as_mut_slice(), bytes),
        }
    }
}

impl Device for MemoryDevice {
    ghost blocks = { seen };

    fn read(&self, which: Which) -> &[u8] {
        match which {
            Which::First => self.first.as_slice(),
            Which::Second => self.second.as_slice(),
        }
    }

    fn write(&mut self, which: Which, bytes: &[u8]) -> Result<(), NotWritten> {
        match self.ends {
            Ends::Done => self.lay_in(which, bytes),
            Ends::Old => Err(NotWritten),
            Ends::New => {
                let _ = self.lay_in(which, bytes);
                Err(NotWritten)
            }
            Ends::Junk => {
                let _ = self.lay_in(which, &JUNK);
                Err(NotWritten)
            }
        }
    }
}
