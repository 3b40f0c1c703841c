// What a word is to the house: reading stops at its first fault.
ghost use Rattle.std.specs.Prelude.{◌≡◌, ℕ, Bool, List};
ghost use Rattle.house_rules.specs.House.{home};
ghost use Rattle.house_side.specs.Hear.{ReadAs};
ghost use Rattle.house_side.specs.House.{asking_under, read_at_house, read_login};
ghost use Rattle.locked.specs.Locked.{ours, ticket_in};
ghost use Rattle.parts.specs.declared.account.Entry.{Entry};

use house_rules::{Accounts, House, is_unknown, own_key};
use locked::{Unopened, open, open_both};
use parts::{Asking, Fault, Key, Login, Ticket};
use std::alloc::Global;
use wire::{Word, read_word};

// A login of a reader, or a ticket and an asking under its key.
#[derive(Clone, Copy)]
pub enum Reading {
    Login(u16, Login),
    Asking(Ticket, Asking),
}

// A ticket under the own key, and then an asking under the ticket's key.
fn read_asking(heap: Global, key: &Key, ticket: &[u8], asking: &[u8]) -> Result<Reading, Unopened>
    ensures { ReadAs (asking_under ours asking.now (ticket_in ours key.now ticket.now)) result }
{
    let (ticket, asking) = open_both(heap, key, ticket, asking)?;
    Ok(Reading::Asking(ticket, asking))
}

// A login under the reader's own key; a reader that isn't there is told before anything is opened.
// This and `read` are no methods: whatever the house remembers and has drawn, a word is read alike.
fn read_login<A: Accounts>(
    heap: Global,
    house: &House,
    accounts: &A,
    reader: u16,
    lock: &[u8],
) -> Result<Reading, Unopened>
    ensures { (es : List Entry) (j w : Bool) (bs : List ℕ) → ReadAs (read_login ours (home house.now (A.listed accounts.now) es j w bs) reader lock.now) result }
{
    if is_unknown(accounts, reader) {
        return Err(Unopened::Wrong(Fault::Unknown));
    }
    let login: Login = open(heap, &own_key(accounts, reader), lock)?;
    Ok(Reading::Login(reader, login))
}

// What a word is to the house with these accounts, whatever it remembers and has drawn.
pub(crate) fn read<A: Accounts>(
    heap: Global,
    house: &House,
    accounts: &A,
    word: &[u8],
) -> Result<Reading, Unopened>
    ensures { (es : List Entry) (j w : Bool) (bs : List ℕ) → ReadAs (read_at_house ours (home house.now (A.listed accounts.now) es j w bs) word.now) result }
{
    match read_word(word)? {
        Word::Login { reader, lock } => read_login(heap, house, accounts, reader, lock),
        Word::Asking { ticket, asking } => read_asking(heap, &house.key, ticket, asking),
        _ => Err(Unopened::Wrong(Fault::Malformed)),
    }
}
