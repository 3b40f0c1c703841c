// What the house knows of a number, and what a side remembers of a thing done.
ghost use Rattle.parts.specs.Account.{is_absent, is_closed, key_in};
ghost use Rattle.std.specs.Prelude.{◌≡◌};

use super::word::Key;

// An account: nobody has the number; open, or closed for good, with its own key.
// Three states by name; the key stands twice, since an absent one has none.
#[derive(Clone, Copy)]
pub enum Account {
    Absent,
    Open(Key),
    Closed(Key),
}

impl Account {
    // Has nobody the number?
    pub fn is_absent(self) -> bool
        ensures { result ≡ is_absent self }
    {
        matches!(self, Account::Absent)
    }

    // Is it closed?
    pub fn is_closed(self) -> bool
        ensures { result ≡ is_closed self }
    {
        matches!(self, Account::Closed(_))
    }

    // The own key; zeros where there is none.
    // Zeros and no Option: the file writes them, and a number nobody has is refused before its key is used.
    pub fn own_key(self) -> Key
        ensures { result ≡ key_in self }
    {
        match self {
            Account::Absent => Key([0; 32]),
            Account::Open(key) | Account::Closed(key) => key,
        }
    }
}

// What is remembered of a thing done: a digest of its key and number, and the tick of doing.
#[derive(Clone, Copy, PartialEq, Eq)]
pub struct Entry {
    pub digest: u128,
    pub tick: u64,
}
