// The accounts, with their device, behind a trait: whoever stores them puts them beneath.
ghost use Rattle.std.specs.Prelude.{◌≡◌, ◌<◌, Bool, List, is_ok, if◌then◌else◌, slice_set};
ghost use Rattle.house_rules.specs.Account.{account_of};
ghost use Rattle.parts.specs.declared.account.Account.{Account as Entered};

use parts::{Account, NotWritten};

// What the house knows of each number, written to a device before it counts.
pub trait Accounts {
    // the accounts, by their numbers
    ghost listed: { Self → List Entered };

    // whether the device wrote, when it was last told to
    ghost writes: { Self → Bool };

    // how the accounts may differ from what they were, besides what is listed
    ghost keeps: { Self → Self → Type 0 };

    // The account of a number; absent where there is none.
    fn account(&self, number: u16) -> Account
        ensures { result ≡ account_of (listed self.now) number };

    // Writes an account; if the device does not write, all is as it was.
    fn set(&mut self, number: u16, account: Account) -> Result<(), NotWritten>
        requires { number < 1024 }
        ensures wrote { is_ok result ≡ writes self.new }
        ensures listed { listed self.new ≡ (if is_ok result then slice_set (listed self.old) number account else listed self.old) }
        ensures keeps { keeps self.old self.new };

    ghost same: { (a : Self) → keeps a a };
}
