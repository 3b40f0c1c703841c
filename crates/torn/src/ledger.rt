// Accounts whose next write can be cut, and what is read again.
ghost use Rattle.std.specs.Prelude.{◌≡◌, true, replicate, None};
ghost use Rattle.parts.specs.declared.account.Account.TheVariants.{Absent};
ghost use Rattle.torn.specs.Ledger.{Reads, listed_in, works_for};
ghost use Rattle.std.proofs.Common.{rules};

use super::device::Device;
use held::{Cut, Register};
use house_rules::Accounts;
use parts::{Account, NotWritten};

// A write of an account: of which number, and what is written.
#[derive(Clone, Copy)]
pub struct Change {
    pub number: u16,
    pub account: Account,
}

// Accounts, whose writes are changes.
pub type Ledger = Device<Register, Change>;

impl Ledger {
    // Nobody has an account; the device writes, with no cut ahead.
    pub fn new() -> Ledger
        ensures listed { listed_in result ≡ replicate 1024 Absent }
        ensures works { works_for result ≡ true }
        ensures next { result.next ≡ None }
    {
        Device::whole(Register::new())
    }

    // What is read again after a crash: a write that was cut stands, or it never was. A junk half of accounts loses nothing.
    pub fn restart(&mut self)
        ensures { Reads self.old self.new }
    {
        if let Some(Cut::New(change)) = self.cut.take() {
            if change.number < 1024 {
                let _ = self.held.set(change.number, change.account);
            }
        }
    }
}

impl Accounts for Ledger {
    ghost listed = { λ r. listed_in r };

    ghost writes = { λ r. works_for r };

    ghost keeps = { λ r s. (r.writes ≡ s.writes) × (r.held.writes ≡ s.held.writes) };

    ghost same = { Prim.search rules };

    fn account(&self, number: u16) -> Account {
        self.held.account(number)
    }

    fn set(&mut self, number: u16, account: Account) -> Result<(), NotWritten> {
        self.begin(Change { number, account })?;
        self.held.set(number, account)
    }
}
