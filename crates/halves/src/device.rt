// A device of two blocks behind a trait: one in memory, or one over a file.
ghost use Rattle.std.specs.Prelude.{◌≡◌, ℕ, is_ok};
ghost use Rattle.halves.specs.Blocks.{Blocks, Writes, block};

use super::which::Which;
use parts::NotWritten;

// Two blocks of bytes that outlast a crash.
pub trait Device {
    // what stands in the blocks
    ghost blocks: { Self → Blocks };

    // The bytes of a block: fewer where it is short or can't be read.
    fn read(&self, which: Which) -> &[u8]
        ensures { result.now ≡ block which (blocks self.now) };

    // Writes bytes at the front of a block, so that they are kept. If it does not, that block may hold anything, and the other is as it was.
    fn write(&mut self, which: Which, bytes: &[u8]) -> Result<(), NotWritten>
        ensures { Writes which bytes.now (blocks self.old) (is_ok result) (blocks self.new) };
}
