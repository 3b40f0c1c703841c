// A word of the line: a ticket with its letter, a receipt or a refusal; any other is malformed here.
ghost use Rattle.std.specs.Prelude.{◌≡◌};
ghost use Rattle.box_rules.specs.Keys.{letter_keys, receipt_keys};
ghost use Rattle.box_rules.specs.Letter.{taken, taken_after};
ghost use Rattle.box_side.specs.Box.{letter_read, opens_first, receipt_read};
ghost use Rattle.box_side.specs.Step.{Deals, Heard, Steps, seen};
ghost use Rattle.locked.specs.Locked.{ours};

use crate::open::open;
use crate::reader_box::ReaderBox;
use crate::tell::{Begun, tell, tell_only};
use crate::ticket::TicketIn;
use crate::told::{NotDone, Told};
use box_rules::Under;
use parts::{Drawn, Fault, Letter, Receipt};
use std::alloc::Global;
use wire::{Word, read_word};

impl<D: Drawn> ReaderBox<D> {
    // Takes a letter that opened, with its ticket.
    fn take_ticket(
        &mut self,
        heap: Global,
        ticket: TicketIn<'_>,
        under: Under,
        letter: Letter,
    ) -> Result<Told, NotDone>
        ensures { Steps (seen self.old.chest (D.left self.old.drawn)) (taken (seen self.old.chest (D.left self.old.drawn)) under letter) (taken_after (seen self.old.chest (D.left self.old.drawn)) under letter ticket.entry.bytes.now) (seen self.new.chest (D.left self.new.drawn)) result }
    {
        let held = ticket.held(heap)?;
        let word = Begun::asking(heap, ticket)?;
        let number = self.chest.number;
        let answer = self
            .chest
            .take_letter(&mut self.drawn, under, letter, held)?;
        Ok(tell(word, number, answer))
    }

    // A ticket and a letter.
    fn hear_letter(
        &mut self,
        heap: Global,
        ticket: TicketIn<'_>,
        lock: &[u8],
    ) -> Result<Told, NotDone>
        ensures { Deals (seen self.old.chest (D.left self.old.drawn)) (letter_read ticket.entry.bytes.now (opens_first ours 2 0 (letter_keys (seen self.old.chest (D.left self.old.drawn))) lock.now)) (seen self.new.chest (D.left self.new.drawn)) result }
    {
        let keys = self.chest.letter_keys(heap)?;
        let opened = open::<Letter>(heap, keys.as_slice(), lock)?;
        self.take_ticket(heap, ticket, opened.found.under(), opened.inside)
    }

    // A receipt.
    fn hear_receipt(&self, heap: Global, lock: &[u8]) -> Result<Told, NotDone>
        ensures { Deals (seen self.entry.now.chest (D.left self.entry.now.drawn)) (receipt_read (opens_first ours 5 0 (receipt_keys self.entry.now.chest.askings) lock.now)) (seen self.entry.now.chest (D.left self.entry.now.drawn)) result }
    {
        let keys = self.chest.receipt_keys(heap)?;
        let opened = open::<Receipt>(heap, keys.as_slice(), lock)?;
        let answer = self.chest.take_receipt(opened.found.key, opened.inside)?;
        Ok(tell_only(answer))
    }

    // A word that came from the line. Where there is no memory the box is as it was.
    pub fn hear(&mut self, heap: Global, word: &[u8]) -> Result<Told, NotDone>
        ensures { Heard (seen self.old.chest (D.left self.old.drawn)) word.now (seen self.new.chest (D.left self.new.drawn)) result }
    {
        match read_word(word)? {
            Word::TicketAndLetter { ticket, letter } => {
                self.hear_letter(heap, TicketIn { bytes: ticket }, letter)
            }
            Word::Receipt { lock } => self.hear_receipt(heap, lock),
            Word::Refusal(class) => Ok(tell_only(self.chest.take_refusal(class))),
            Word::Login { .. } | Word::Asking { .. } => Err(NotDone::Wrong(Fault::Malformed)),
        }
    }
}
