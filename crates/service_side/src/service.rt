// A service: its side, its own key, its memory against repeating, and its drawn bytes.
ghost use Rattle.locked.specs.Locked.{ours};
ghost use Rattle.parts.specs.Tick.{clock};
ghost use Rattle.service_rules.specs.Service.{view};
ghost use Rattle.service_rules.specs.Side.{on_tick};
ghost use Rattle.service_side.specs.Hear.{Hears, ReadAs};
ghost use Rattle.service_side.specs.Service.{after_word, answer_to, asks, read_at_service};
ghost use Rattle.std.specs.Prelude.{◌≡◌, true, is_err};

use crate::heard::{Heard, told};
use locked::{Unopened, open_both};
use parts::{Asking, Drawn, Fault, Key, Ticked, Ticket};
use seal::digest;
use service_rules::{Done, Memory, Side};
use std::alloc::{AllocError, Global};
use wire::{Word, read_word};

// A service. Its drawn bytes and its device are its owner's to see to.
#[derive(Drop)]
pub struct Service<M, D> {
    pub side: Side,
    pub key: Key,
    pub memory: M,
    pub drawn: D,
}

// What a word is to a service with this key: reading stops at its first fault.
// No method: reading changes nothing, and needs the key alone.
fn read(heap: Global, key: &Key, word: &[u8]) -> Result<(Ticket, Asking), Unopened>
    ensures { ReadAs (read_at_service ours key.now word.now) result }
{
    match read_word(word)? {
        Word::Asking { ticket, asking } => open_both(heap, key, ticket, asking),
        _ => Err(Unopened::Wrong(Fault::Malformed)),
    }
}

impl<M: Memory, D: Drawn> Service<M, D> {
    // Decides on a ticket and an asking that were read.
    // As the `ask` of the house: a digest, and then a decision of its own side.
    fn decide(&mut self, ticket: Ticket, asking: Asking) -> Result<Done, Fault>
        ensures answer { result ≡ answer_to ours
            (view self.old.side (M.kept self.old.memory) (M.junk self.old.memory) (M.writes self.new.memory) (D.left self.old.drawn))
            (asks ticket asking) }
        ensures after { (view self.new.side (M.kept self.new.memory) (M.junk self.new.memory) (M.writes self.new.memory) (D.left self.new.drawn))
            ≡ after_word ours
            (view self.old.side (M.kept self.old.memory) (M.junk self.old.memory) (M.writes self.new.memory) (D.left self.old.drawn))
            (asks ticket asking) }
        ensures keeps { M.keeps self.old.memory self.new.memory }
        ensures key { self.new.key ≡ self.old.key }
    {
        let digest = digest(&ticket.key.0, &asking.number.0);
        self.side
            .decide(&mut self.memory, &mut self.drawn, ticket, asking, digest)
    }

    // Tells it the tick.
    pub fn tick(&mut self, to: u64) -> Ticked
        ensures answer { result ≡ clock self.old.side.now to }
        ensures side { self.new.side ≡ on_tick self.old.side to }
        ensures key { self.new.key ≡ self.old.key }
        ensures memory { self.new.memory ≡ self.old.memory }
        ensures drawn { self.new.drawn ≡ self.old.drawn }
    {
        self.side.tick(to)
    }

    // Hears a word: frames it, opens its locks, decides, and locks the answer. Where there is no memory to open it in,
    // all is as it was.
    // A `match` and no `?`: what is wrong is answered by a refusal, want of memory alone is an error.
    pub fn hear(&mut self, heap: Global, word: &[u8]) -> Result<Heard, AllocError>
        ensures hears { Hears ours
            (view self.old.side (M.kept self.old.memory) (M.junk self.old.memory) (M.writes self.new.memory) (D.left self.old.drawn))
            self.old.key word.now result
            (view self.new.side (M.kept self.new.memory) (M.junk self.new.memory) (M.writes self.new.memory) (D.left self.new.drawn)) }
        ensures keeps { M.keeps self.old.memory self.new.memory }
        ensures key { self.new.key ≡ self.old.key }
        ensures same { is_err result ≡ true → self.new ≡ self.old }
    {
        match read(heap, &self.key, word) {
            Ok((ticket, asking)) => Ok(told(self.decide(ticket, asking))),
            Err(Unopened::Wrong(fault)) => Ok(told(Err(fault))),
            Err(Unopened::NoMemory) => Err(AllocError),
        }
    }
}
