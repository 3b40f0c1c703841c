// The accounts on a device of two halves: a change is written whole before it is held.
ghost use Rattle.std.specs.Prelude.{◌≡◌, ◌<◌, Some, None, MatchResult, is_ok};
ghost use Rattle.accounts.specs.Entry.{Sized};
ghost use Rattle.accounts.specs.File.{Begins, Changes, Kept, accounts_on, all_in, state, whole};
ghost use Rattle.accounts.specs.Payload.{payload as payload_of};
ghost use Rattle.halves.specs.Half.{payload_in};
ghost use Rattle.std.proofs.Common.{rules};

use super::payload::{COUNT, LEN, Payload, accounts_in, put_accounts};
use super::rise::may_become;
use halves::{AROUND, Device, Halves, Which};
use house_rules::Accounts;
use parts::{Account, NotWritten};

// How many bytes a half has: the accounts, between a turn and a sum.
pub const HALF: usize = LEN + AROUND;

// All accounts, and the device on which each change is written before it counts.
#[derive(Drop)]
pub struct AccountFile<D> {
    pub device: D,
    halves: Halves,
    accounts: [Account; COUNT],
    // whether the device wrote when it was last told to: the trait asks for it after the call too
    wrote: bool,
}

// Writes all accounts between room for the turn and room for the sum.
fn encode(bytes: &mut [u8; HALF], accounts: &[Account; COUNT])
    ensures { payload_in bytes.new ≡ payload_of accounts.now }
{
    put_accounts(&mut bytes[8..8 + LEN], accounts);
}

// Has the file its size?
fn is_whole<D: Device>(device: &D) -> bool
    ensures { result ≡ whole (D.blocks device.now) }
{
    device.read(Which::First).len() == HALF && device.read(Which::Second).len() == HALF
}

// The accounts in a payload of full length.
fn all_in(payload: &[u8]) -> Option<[Account; COUNT]>
    ensures { result ≡ all_in payload.now }
{
    payload.as_array().map(accounts_in)
}

// The accounts in the newest good half, if the file has its size.
fn accounts_of<D: Device>(halves: &Halves, device: &D) -> Option<[Account; COUNT]>
    ensures { result ≡ accounts_on halves.now (D.blocks device.now) }
{
    if !is_whole(device) {
        return None;
    }
    all_in(halves.payload(device))
}

impl<D: Device> AccountFile<D> {
    // Every start: a new file is made, any other is read. If no half is good or the file has another size, the house does not start, and has its device back.
    // A `match`, since both arms take the device.
    pub fn start(mut device: D) -> Result<AccountFile<D>, D>
        ensures { MatchResult result (λ f. Begins (D.blocks device) (Some (state f.accounts f.halves (D.blocks f.device))) (D.blocks f.device)) (λ d. Begins (D.blocks device) None (D.blocks d)) }
    {
        let mut bytes = [0u8; HALF];
        let halves = Halves::start(&mut device, &Payload, &mut bytes);
        match accounts_of(&halves, &device) {
            Some(accounts) => Ok(AccountFile {
                device,
                halves,
                accounts,
                wrote: true,
            }),
            None => Err(device),
        }
    }

    // Writes all accounts with one of them changed, and holds the change if that succeeded. A state that would not rise is not written.
    fn change(&mut self, number: u16, account: Account) -> Result<(), NotWritten>
        requires { number < 1024 }
        ensures sized { Sized account }
        ensures changes { Changes (state self.old.accounts self.old.halves (D.blocks self.old.device)) number account (is_ok result) (state self.new.accounts self.new.halves (D.blocks self.new.device)) }
    {
        if !may_become(&self.accounts, number, account) {
            return Err(NotWritten);
        }
        let mut accounts = self.accounts;
        accounts[number as usize] = account;
        let mut bytes = [0u8; HALF];
        encode(&mut bytes, &accounts);
        self.halves.write(&mut self.device, &mut bytes)?;
        self.accounts = accounts;
        Ok(())
    }
}

impl<D: Device> Accounts for AccountFile<D> {
    ghost listed = { λ f. f.accounts };

    ghost writes = { λ f. f.wrote };

    ghost keeps = { λ f g. Kept (state f.accounts f.halves (D.Device.blocks f.device)) (state g.accounts g.halves (D.Device.blocks g.device)) };

    ghost same = { Prim.search rules };

    fn account(&self, number: u16) -> Account {
        self.accounts
            .get(number as usize)
            .copied()
            .unwrap_or(Account::Absent)
    }

    fn set(&mut self, number: u16, account: Account) -> Result<(), NotWritten> {
        let written = self.change(number, account);
        self.wrote = written.is_ok();
        written
    }
}
