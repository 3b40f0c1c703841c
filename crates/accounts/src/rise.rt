// What an account may become: states only rise.
ghost use Rattle.accounts.specs.Entry.{Sized, above};
ghost use Rattle.accounts.specs.File.{rises};
ghost use Rattle.std.specs.Prelude.{◌≡◌, ◌<◌};

use super::payload::COUNT;
use parts::Account;

// May an account become this one? An absent one may become open, an open one closed, with its key.
fn is_above(old: Account, new: Account) -> bool
    ensures answer { result ≡ above old new }
    ensures sized { Sized new }
{
    match (old, new) {
        (Account::Absent, Account::Open(_)) => true,
        (Account::Open(own), Account::Closed(key)) => own == key,
        _ => false,
    }
}

// May the account of a number become this one? Number 0 has none.
pub(crate) fn may_become(accounts: &[Account; COUNT], number: u16, account: Account) -> bool
    requires { number < 1024 }
    ensures answer { result ≡ rises accounts.now number account }
    ensures sized { Sized account }
{
    is_above(accounts[number as usize], account) && number != 0
}
