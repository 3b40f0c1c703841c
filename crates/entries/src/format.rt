// Entries as the payload of a half.
ghost use Rattle.entries.specs.Bytes.{measured_of};
ghost use Rattle.std.specs.Prelude.{◌≡◌};
ghost use Rattle.std.proofs.Common.{rules};

use super::bytes::ENTRY;
use halves::Format;
use service_rules::ROOM;

// What is remembered, as a payload: at most 8,192 entries.
#[derive(Clone, Copy)]
pub struct Entries;

impl Format for Entries {
    ghost measured = { λ _. measured_of };

    ghost most = { λ _. 196610 };

    ghost steady = { Prim.search rules };

    fn measure(&self, bytes: &[u8]) -> Option<usize> {
        let count = u16::from_be_bytes(*bytes.first_chunk()?) as usize;
        (count <= ROOM).then_some(2 + ENTRY * count)
    }

    fn most(&self) -> usize {
        2 + ENTRY * ROOM
    }
}
