// Accounts held by value, on a device that writes or does not.
ghost use Rattle.parts.specs.declared.account.Account.{Account as Entered};
ghost use Rattle.parts.specs.declared.account.Account.TheVariants.{Absent};
ghost use Rattle.std.specs.Prelude.{◌≡◌, true, replicate};
ghost use Rattle.std.proofs.Common.{rules};

use house_rules::Accounts;
use parts::{Account, NotWritten};

// The account of each number, and a flag that the owner tells: whether the device writes.
#[derive(Drop)]
pub struct Register {
    accounts: [Account; 1024],
    writes: bool,
}

impl Register {
    // Nobody has an account yet; the device writes.
    pub fn new() -> Register
        ensures accounts { result.accounts ≡ replicate 1024 Absent }
        ensures writes { result.writes ≡ true }
    {
        Register {
            accounts: [Account::Absent; 1024],
            writes: true,
        }
    }

    // The device writes from now on, or does not.
    // A setter of one field; the memory has one too, for its own device.
    pub fn set_writes(&mut self, writes: bool)
        ensures writes { self.new.writes ≡ writes }
        ensures accounts { self.new.accounts ≡ self.old.accounts }
    {
        self.writes = writes;
    }
}

impl Accounts for Register {
    ghost listed = { λ r. r.accounts };

    ghost writes = { λ r. r.writes };

    ghost keeps = { λ r s. r.writes ≡ s.writes };

    ghost same = { Prim.search rules };

    fn account(&self, number: u16) -> Account {
        self.accounts
            .get(usize::from(number))
            .copied()
            .unwrap_or(Account::Absent)
    }

    fn set(&mut self, number: u16, account: Account) -> Result<(), NotWritten> {
        if !self.writes {
            return Err(NotWritten);
        }
        self.accounts[usize::from(number)] = account;
        Ok(())
    }
}
