// Letters, receipts and refusals.
ghost use Rattle.std.specs.Prelude.{◌≡◌, ℕ, ◌+◌, ◌^◌, ◌<◌, List};
ghost use Rattle.box_rules.specs.Chest.{boxed};
ghost use Rattle.box_rules.specs.Letter.{TakesLetter, confirmed, letter_judged, pending_in, settled, stored};
ghost use Rattle.box_rules.specs.declared.answer.Answer.TheVariants.{Shown};
ghost use Rattle.parts.specs.Condition.{first_fault};

use super::answer::{Answer, Got};
use super::ask::DRAWN;
use super::chest::Chest;
use super::line::{Held, Pass, Pending, Sought, Under};
use parts::{Class, Drawn, Fault, Key, Letter, Receipt, check, lowest};

// What is wrong with a letter that opened.
fn judge_letter<D: Drawn>(taken: u64, drawn: &D, pending: Option<Pending>) -> Option<Fault>
    ensures { result ≡ first_fault (letter_judged taken (D.left drawn.now) pending) }
{
    lowest(&[
        check(Fault::NotUnderWay, pending.is_none()),
        check(Fault::NoDrawnBytes, drawn.count() < DRAWN),
        check(Fault::OutOfRange, taken >= u64::MAX),
    ])
}

impl<T: Drop> Chest<T> {
    // What a letter belongs to.
    // Here and below, what comes with a letter stays by itself: what is promised of a letter names each.
    fn pending_for(&self, under: Under, letter: Letter) -> Option<Pending>
        ensures { result ≡ pending_in self.entry.now.logins self.entry.now.askings under letter }
    {
        match under {
            Under::Own if letter.service != 0 => None,
            Under::Own => self.logins.oldest(Sought::Login(letter.number)),
            Under::Session(key) => self
                .askings
                .oldest(Sought::AtHouse(key, letter.number, letter.service)),
        }
    }

    // Takes out what a letter belongs to.
    // A second match of the key: the one above looks, this one takes out.
    fn settle(&mut self, under: Under, letter: Letter)
        ensures { (bs : List ℕ) → boxed self.new bs ≡ settled (boxed self.old bs) under letter }
    {
        match under {
            Under::Own => self.logins.remove(letter.number),
            Under::Session(_) => self.askings.remove(letter.number),
        }
    }

    // Puts a ticket in, under the next id.
    fn store(&mut self, letter: Letter, ticket: T)
        requires { self.old.taken + 1 < 2 ^ 64 }
        ensures { (bs : List ℕ) → boxed self.new bs ≡ stored (boxed self.old bs) letter ticket }
    {
        self.taken += 1;
        let pass = Pass {
            id: self.taken,
            service: letter.service,
            key: letter.key,
            until: letter.until,
        };
        self.tickets.put(Held { pass, ticket });
    }

    // Takes a letter that opened, with the ticket that came with it, and asks whom the ticket is for, for the same line.
    // The login or asking that the letter belongs to is under way no more.
    pub fn take_letter<D: Drawn>(
        &mut self,
        drawn: &mut D,
        under: Under,
        letter: Letter,
        ticket: T,
    ) -> Result<Answer, Fault>
        ensures { TakesLetter (boxed self.old (D.left drawn.old)) under letter ticket result (boxed self.new (D.left drawn.new)) }
    {
        let found = self.pending_for(under, letter);
        if let Some(fault) = judge_letter(self.taken, drawn, found) {
            return Err(fault);
        }
        let pending = found.ok_or(Fault::NotUnderWay)?;
        self.settle(under, letter);
        self.store(letter, ticket);
        let got = Got {
            id: self.taken,
            service: letter.service,
            until: letter.until,
        };
        let asking = self.ask(drawn, letter.key, letter.service, pending.line);
        Ok(Answer::Takes(got, asking))
    }

    // Shows a receipt that opened with the line that it belongs to; it changes nothing.
    pub fn take_receipt(&self, under: Key, receipt: Receipt) -> Result<Answer, Fault>
        ensures { result ≡ confirmed self.entry.now.askings under receipt }
    {
        let sought = Sought::AtService(under, receipt.number);
        let pending = self.askings.oldest(sought).ok_or(Fault::NotUnderWay)?;
        Ok(Answer::Receipt(pending.line.place))
    }

    // Shows a refusal; it changes nothing.
    pub fn take_refusal(&self, class: Class) -> Answer
        ensures { result ≡ Shown class }
    {
        Answer::Shown(class)
    }
}
