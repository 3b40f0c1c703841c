// The house: what it is, its accounts, its memory against repeating, and its drawn bytes.
ghost use Rattle.house_rules.specs.Change.{opened, opened_after, shut, shut_after};
ghost use Rattle.house_rules.specs.House.{home};
ghost use Rattle.house_rules.specs.Start.{settled};
ghost use Rattle.house_side.specs.Hear.{Hears, ticked};
ghost use Rattle.house_side.specs.House.{after_word, answer_to, asks, logs};
ghost use Rattle.locked.specs.Locked.{ours};
ghost use Rattle.parts.specs.Tick.{clock};
ghost use Rattle.std.specs.Prelude.{◌≡◌, true, is_err};

use crate::heard::{Heard, told_grant, told_login};
use crate::reading::{Reading, read};
use house_rules::{Accounts, Changed, Granted, House as Rules, close_account, open_account};
use locked::Unopened;
use parts::{Asking, Drawn, Fault, Key, Login, Ticked, Ticket};
use seal::digest;
use service_rules::Memory;
use std::alloc::{AllocError, Global};

// The house. Its drawn bytes and its devices are its owner's to see to.
#[derive(Drop)]
pub struct House<A, M, D> {
    pub house: Rules,
    pub accounts: A,
    pub memory: M,
    pub drawn: D,
}

impl<A: Accounts, M: Memory, D: Drawn> House<A, M, D> {
    // Decides on a login that was read.
    // Its clauses and those of `ask` are alike in form: the answer, and the state after, seen through `home`.
    fn log_in(&mut self, reader: u16, login: Login) -> Result<Granted, Fault>
        ensures answer { result ≡ answer_to ours
            (home self.old.house (A.listed self.old.accounts) (M.kept self.old.memory) (M.junk self.old.memory) (M.Memory.writes self.new.memory) (D.left self.old.drawn))
            (logs reader login) }
        ensures after { (home self.new.house (A.listed self.new.accounts) (M.kept self.new.memory) (M.junk self.new.memory) (M.Memory.writes self.new.memory) (D.left self.new.drawn))
            ≡ after_word ours
            (home self.old.house (A.listed self.old.accounts) (M.kept self.old.memory) (M.junk self.old.memory) (M.Memory.writes self.new.memory) (D.left self.old.drawn))
            (logs reader login) }
        ensures accounts { self.new.accounts ≡ self.old.accounts }
        ensures memory { self.new.memory ≡ self.old.memory }
    {
        self.house
            .log_in(&self.accounts, &mut self.drawn, reader, login)
    }

    // Decides on a ticket and an asking that were read.
    fn ask(&mut self, ticket: Ticket, asking: Asking) -> Result<Granted, Fault>
        ensures answer { result ≡ answer_to ours
            (home self.old.house (A.listed self.old.accounts) (M.kept self.old.memory) (M.junk self.old.memory) (M.Memory.writes self.new.memory) (D.left self.old.drawn))
            (asks ticket asking) }
        ensures after { (home self.new.house (A.listed self.new.accounts) (M.kept self.new.memory) (M.junk self.new.memory) (M.Memory.writes self.new.memory) (D.left self.new.drawn))
            ≡ after_word ours
            (home self.old.house (A.listed self.old.accounts) (M.kept self.old.memory) (M.junk self.old.memory) (M.Memory.writes self.new.memory) (D.left self.old.drawn))
            (asks ticket asking) }
        ensures accounts { self.new.accounts ≡ self.old.accounts }
        ensures keeps { M.Memory.keeps self.old.memory self.new.memory }
    {
        let digest = digest(&ticket.key.0, &asking.number.0);
        self.house.ask(
            &self.accounts,
            &mut self.memory,
            &mut self.drawn,
            ticket,
            &asking,
            digest,
        )
    }

    // Tells it the tick.
    pub fn tick(&mut self, to: u64) -> Ticked
        ensures answer { result ≡ clock self.old.house.side.now to }
        ensures settled { settled self.new.house ≡ ticked self.old.house to }
        ensures accounts { self.new.accounts ≡ self.old.accounts }
        ensures memory { self.new.memory ≡ self.old.memory }
        ensures drawn { self.new.drawn ≡ self.old.drawn }
    {
        self.house.tick(to)
    }

    // Opens an account with an own key.
    pub fn open(&mut self, number: u16, key: Key) -> Result<Changed, Fault>
        ensures answer { result ≡ opened (A.listed self.old.accounts) number (A.Accounts.writes self.new.accounts) }
        ensures after { A.listed self.new.accounts ≡ opened_after (A.listed self.old.accounts) number key (A.Accounts.writes self.new.accounts) }
        ensures keeps { A.Accounts.keeps self.old.accounts self.new.accounts }
        ensures house { self.new.house ≡ self.old.house }
        ensures rest { (self.new.memory ≡ self.old.memory) × (self.new.drawn ≡ self.old.drawn) }
    {
        open_account(&mut self.accounts, number, key)
    }

    // Closes an account for good.
    pub fn close(&mut self, number: u16) -> Result<Changed, Fault>
        ensures answer { result ≡ shut (A.listed self.old.accounts) number (A.Accounts.writes self.new.accounts) }
        ensures after { A.listed self.new.accounts ≡ shut_after (A.listed self.old.accounts) number (A.Accounts.writes self.new.accounts) }
        ensures keeps { A.Accounts.keeps self.old.accounts self.new.accounts }
        ensures house { self.new.house ≡ self.old.house }
        ensures rest { (self.new.memory ≡ self.old.memory) × (self.new.drawn ≡ self.old.drawn) }
    {
        close_account(&mut self.accounts, number)
    }

    // Hears a word: frames it, opens its locks, decides, and locks the answer. Where there is no memory to open it in,
    // all is as it was.
    // A `match` and no `?`: what is wrong is answered by a refusal, want of memory alone is an error.
    pub fn hear(&mut self, heap: Global, word: &[u8]) -> Result<Heard, AllocError>
        ensures hears { Hears ours
            (home self.old.house (A.listed self.old.accounts) (M.kept self.old.memory) (M.junk self.old.memory) (M.Memory.writes self.new.memory) (D.left self.old.drawn))
            word.now result
            (home self.new.house (A.listed self.new.accounts) (M.kept self.new.memory) (M.junk self.new.memory) (M.Memory.writes self.new.memory) (D.left self.new.drawn)) }
        ensures accounts { self.new.accounts ≡ self.old.accounts }
        ensures keeps { M.Memory.keeps self.old.memory self.new.memory }
        ensures same { is_err result ≡ true → self.new ≡ self.old }
    {
        match read(heap, &self.house, &self.accounts, word) {
            Ok(Reading::Login(reader, login)) => Ok(told_login(self.log_in(reader, login))),
            Ok(Reading::Asking(ticket, asking)) => Ok(told_grant(self.ask(ticket, asking))),
            Err(Unopened::Wrong(fault)) => Ok(Heard::refused(fault)),
            Err(Unopened::NoMemory) => Err(AllocError),
        }
    }
}
