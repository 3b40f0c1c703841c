// A line of the reader.
ghost use Rattle.box_side.specs.Sent.{front_of, ticket_by};
ghost use Rattle.box_side.specs.Step.{Wanted, bytes_of, seen};
ghost use Rattle.std.specs.Prelude.{◌≡◌, IfOk};
ghost use Rattle.std.specs.Option.{option_map};

use crate::reader_box::ReaderBox;
use crate::tell::{Begun, tell};
use crate::ticket::TicketBytes;
use crate::told::{NotDone, Told};
use box_rules::Chest;
use parts::{Drawn, What};
use std::alloc::{AllocError, Global};

// The ticket that a line names, if it names one that is held.
fn ticket_by(chest: &Chest<TicketBytes>, by: Option<u64>) -> Option<&TicketBytes>
    ensures { option_map (λ r. r.now) result ≡ ticket_by by chest.entry.now.tickets }
{
    chest.ticket(by?)
}

// Memory for the word of a line by this ticket or by none, with a copy of the ticket in it.
fn word_by(heap: Global, ticket: Option<&TicketBytes>) -> Result<Begun, AllocError>
    ensures { IfOk result (λ w. w ≡ front_of (option_map bytes_of (option_map (λ r. r.now) ticket.entry))) }
{
    match ticket {
        None => Begun::empty(heap),
        Some(ticket) => Begun::asking(heap, ticket.lent()),
    }
}

impl<D: Drawn> ReaderBox<D> {
    // A line for a service, by a ticket or by none. By none the box logs in, whatever tickets it holds.
    // Where there is no memory the box is as it was.
    pub fn want(
        &mut self,
        heap: Global,
        service: u16,
        by: Option<u64>,
        what: What,
    ) -> Result<Told, NotDone>
        ensures { Wanted (seen self.old.chest (D.left self.old.drawn)) service by what (seen self.new.chest (D.left self.new.drawn)) result }
    {
        let word = word_by(heap, ticket_by(&self.chest, by))?;
        let number = self.chest.number;
        let answer = self.chest.want(&mut self.drawn, service, by, what)?;
        Ok(tell(word, number, answer))
    }
}
