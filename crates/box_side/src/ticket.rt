// A ticket as a box holds it and as it stands in a word: the bytes of a lock, which it hands on unread.
ghost use Rattle.std.specs.Prelude.{◌≡◌, ◌≤◌, IfOk, length, vec_len};

use std::alloc::{AllocError, Global};

// The bytes of a ticket, as many as a word can say.
#[derive(Drop)]
pub struct TicketBytes {
    pub(crate) bytes: Vec<u8>,
    ghost least: { 32 ≤ vec_len bytes },
    ghost most: { vec_len bytes ≤ 65535 },
}

// A ticket that stands in other bytes.
#[derive(Clone, Copy)]
pub(crate) struct TicketIn<'a> {
    pub(crate) bytes: &'a [u8],
    ghost least: { 32 ≤ length bytes.now },
    ghost most: { length bytes.now ≤ 65535 },
}

impl TicketBytes {
    // The ticket where it is held.
    pub(crate) fn lent(&self) -> TicketIn<'_>
        ensures { result.bytes.now ≡ self.now.bytes.items }
    {
        TicketIn {
            bytes: self.bytes.as_slice(),
        }
    }
}

impl<'a> TicketIn<'a> {
    // The ticket to be held.
    pub(crate) fn held(self, heap: Global) -> Result<TicketBytes, AllocError>
        ensures { IfOk result (λ x. x.bytes.items ≡ self.entry.bytes.now) }
    {
        let bytes = Vec::from_slice(heap, self.bytes)?;
        Ok(TicketBytes { bytes })
    }
}
