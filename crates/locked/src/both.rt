// A ticket and an asking, as they stand in a word.
ghost use Rattle.locked.specs.Both.{both_in};
ghost use Rattle.locked.specs.Locked.{ours};
ghost use Rattle.locked.specs.Opened.{Opened};

use crate::opened::open;
use crate::unopened::Unopened;
use parts::{Asking, Key, Ticket};
use std::alloc::Global;

// A ticket under a key, and then an asking under the ticket's key.
pub fn open_both(
    heap: Global,
    key: &Key,
    ticket: &[u8],
    asking: &[u8],
) -> Result<(Ticket, Asking), Unopened>
    ensures { Opened (both_in ours key.now ticket.now asking.now) result }
{
    let ticket: Ticket = open(heap, key, ticket)?;
    let asking: Asking = open(heap, &ticket.key, asking)?;
    Ok((ticket, asking))
}
