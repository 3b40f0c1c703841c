// Opening and closing accounts; both work while the house waits.
ghost use Rattle.house_rules.specs.Change.{changed, opened, opened_after, shut, shut_after, written};
ghost use Rattle.std.specs.Prelude.{◌≡◌, ◌<◌};

use super::accounts::Accounts;
use parts::{Account, Fault, Key};
use service_rules::is_nobody;

// It is done and written, or nothing had to change.
#[derive(Clone, Copy, PartialEq, Eq)]
pub enum Changed {
    Done,
    Same,
}

// Opens an account with an own key. One that is there, open or closed, stays as it is.
// Opening and closing part at an absent account and at an open one; what they share is `write`.
pub fn open_account<A: Accounts>(accounts: &mut A, number: u16, key: Key) -> Result<Changed, Fault>
    ensures answer { result ≡ opened (A.listed accounts.old) number (A.writes accounts.new) }
    ensures after { A.listed accounts.new ≡ opened_after (A.listed accounts.old) number key (A.writes accounts.new) }
    ensures keeps { A.keeps accounts.old accounts.new }
{
    if is_nobody(number) {
        return Err(Fault::Unknown);
    }
    match accounts.account(number) {
        Account::Absent => write(accounts, number, Account::Open(key)),
        Account::Open(_) | Account::Closed(_) => Ok(Changed::Same),
    }
}

// Closes an account for good.
pub fn close_account<A: Accounts>(accounts: &mut A, number: u16) -> Result<Changed, Fault>
    ensures answer { result ≡ shut (A.listed accounts.old) number (A.writes accounts.new) }
    ensures after { A.listed accounts.new ≡ shut_after (A.listed accounts.old) number (A.writes accounts.new) }
    ensures keeps { A.keeps accounts.old accounts.new }
{
    if is_nobody(number) {
        return Err(Fault::Unknown);
    }
    match accounts.account(number) {
        Account::Absent => Err(Fault::Unknown),
        Account::Open(key) => write(accounts, number, Account::Closed(key)),
        Account::Closed(_) => Ok(Changed::Same),
    }
}

// Writes a change, which counts when the device has it.
fn write<A: Accounts>(accounts: &mut A, number: u16, account: Account) -> Result<Changed, Fault>
    requires { number < 1024 }
    ensures answer { result ≡ written (A.writes accounts.new) }
    ensures after { A.listed accounts.new ≡ changed (A.listed accounts.old) number account (written (A.writes accounts.new)) }
    ensures keeps { A.keeps accounts.old accounts.new }
{
    accounts.set(number, account)?;
    Ok(Changed::Done)
}
