// One account in 33 bytes: its state and its own key.
ghost use Rattle.accounts.specs.Entry.{account_in, entry as entry_of, state_of};
ghost use Rattle.std.specs.Prelude.{◌≡◌};

use parts::{Account, Key};

// How many bytes an account has.
pub(crate) const ENTRY: usize = 33;

// The state in a byte.
// This and `account_in` go by number, with no TryFrom: any byte above 1 is read as closed, so nothing fails.
fn state_of(account: Account) -> u8
    ensures { result ≡ state_of account }
{
    match account {
        Account::Absent => 0,
        Account::Open(_) => 1,
        Account::Closed(_) => 2,
    }
}

// The bytes of an account.
pub(crate) fn entry_of(account: Account) -> [u8; ENTRY]
    ensures { result ≡ entry_of account }
{
    let mut bytes = [state_of(account); ENTRY];
    bytes[1..].copy_from_slice(&account.own_key().0);
    bytes
}

// The account that stands here. The key of an absent one is not looked at.
pub(crate) fn account_in(bytes: &[u8; ENTRY]) -> Account
    ensures { result ≡ account_in bytes.now }
{
    let (_, key) = bytes.split_at(1);
    let key = Key(*key.first_chunk().unwrap());
    match bytes[0] {
        0 => Account::Absent,
        1 => Account::Open(key),
        _ => Account::Closed(key),
    }
}
