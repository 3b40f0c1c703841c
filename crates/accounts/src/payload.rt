// All accounts in 33,792 bytes, by their numbers.
ghost use Rattle.std.specs.Prelude.{◌≡◌, ◌<◌, ◌≤◌, length};
ghost use Rattle.accounts.specs.Payload.{account_at, accounts_in, are_low, measure as measure_of, payload as payload_of};
ghost use Rattle.accounts.specs.Bytes;

use super::entry::{ENTRY, account_in, entry_of};
use halves::Format;
use parts::Account;
use std::array;

// How many accounts there are, that of nobody among them.
pub(crate) const COUNT: usize = 1024;

// How many bytes they have.
pub(crate) const LEN: usize = ENTRY * COUNT;

// The account of a number. What stands in the entry of number 0 is not looked at.
fn account_at(bytes: &[u8; LEN], number: usize) -> Account
    requires { number < 1024 }
    ensures { result ≡ account_at bytes.now number }
{
    if number == 0 {
        return Account::Absent;
    }
    let (_, rest) = bytes.split_at(ENTRY * number);
    account_in(rest.first_chunk().unwrap())
}

// The accounts of all numbers.
pub(crate) fn accounts_in(bytes: &[u8; LEN]) -> [Account; COUNT]
    ensures { result ≡ accounts_in bytes.now }
{
    array::from_fn(|number| account_at(bytes, number))
}

// Writes all accounts. By place, since nothing is known of bytes that `chunks_exact_mut` has lent.
pub(crate) fn put_accounts(bytes: &mut [u8], accounts: &[Account; COUNT])
    requires { length bytes.old ≡ 33792 }
    ensures { bytes.new ≡ payload_of accounts.now }
{
    for (number, account) in accounts.iter().enumerate() {
        bytes[ENTRY * number..ENTRY * number + ENTRY].copy_from_slice(&entry_of(*account));
    }
}

// Is no state above 2? What stands in the entry of number 0 is not looked at.
fn are_low(entries: &[[u8; ENTRY]]) -> bool
    ensures { result ≡ are_low entries.now }
{
    entries.iter().skip(1).all(|entry| entry[0] <= 2)
}

// What a half of the accounts file holds.
#[derive(Clone, Copy, Drop)]
pub struct Payload;

impl Format for Payload {
    ghost measured = { λ _. measure_of };

    ghost most = { λ _. 33792 };

    ghost steady = { λ s. Bytes.steady };

    fn measure(&self, bytes: &[u8]) -> Option<usize> {
        let (entries, _) = bytes.first_chunk::<LEN>()?.as_chunks();
        are_low(entries).then_some(LEN)
    }

    fn most(&self) -> usize {
        LEN
    }
}
