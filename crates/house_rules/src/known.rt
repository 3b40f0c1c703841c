// What the accounts say of a number.
ghost use Rattle.house_rules.specs.Account.{closed, own_key, unknown};
ghost use Rattle.std.specs.Prelude.{◌≡◌};

use super::accounts::Accounts;
use parts::Key;
use service_rules::is_nobody;

// Has nobody an account with this number?
pub fn is_unknown<A: Accounts>(accounts: &A, number: u16) -> bool
    ensures { result ≡ unknown (A.listed accounts.now) number }
{
    is_nobody(number) || accounts.account(number).is_absent()
}

// Is the account closed?
pub fn is_closed<A: Accounts>(accounts: &A, number: u16) -> bool
    ensures { result ≡ closed (A.listed accounts.now) number }
{
    accounts.account(number).is_closed()
}

// The own key; zeros where there is no account.
// Zeros and no Option, since a number that nobody has is refused before its key is used.
pub fn own_key<A: Accounts>(accounts: &A, number: u16) -> Key
    ensures { result ≡ own_key (A.listed accounts.now) number }
{
    accounts.account(number).own_key()
}
