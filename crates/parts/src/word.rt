// The contents of each kind of lock, by value.
ghost use Rattle.parts.specs.What.{what_in, words_in};
ghost use Rattle.std.specs.Prelude.{◌≡◌, ◌-◌, ◌<◌, ◌≤◌, ◌++◌, length, replicate, take};

// A key of 32 bytes: somebody's own key, or a session key that the house drew.
#[derive(Clone, Copy, PartialEq, Eq)]
pub struct Key(pub [u8; 32]);

// A nonce of 16 drawn bytes, by which a login or an asking is known.
#[derive(Clone, Copy, PartialEq, Eq)]
pub struct Number(pub [u8; 16]);

// The 16 drawn bytes with which a lock is made.
#[derive(Clone, Copy, PartialEq, Eq)]
pub struct Salt(pub [u8; 16]);

// What is asked, in the reader's own words: the first `len` of these bytes.
// The room is fixed, since decisions use no heap.
#[derive(Clone, Copy)]
pub struct What {
    pub len: u16,
    pub bytes: [u8; 1024],
}

// Words with zeros behind them.
fn padded(words: &[u8]) -> [u8; 1024]
    requires { length words.now ≤ 1024 }
    ensures { result ≡ words.now ++ replicate (1024 - length words.now) 0 }
{
    let mut bytes = [0; 1024];
    bytes[..words.len()].copy_from_slice(words);
    bytes
}

// A length in two bytes; one that is too long stays too long.
fn short(len: usize) -> u16
    ensures fit { len ≤ 1024 → result ≡ len }
    ensures many { 1024 < len → 1024 < result }
    ensures len { len ≤ 65535 → result ≡ len }
    ensures most { 65535 < len → result ≡ 65535 }
{
    u16::try_from(len).unwrap_or(u16::MAX)
}

impl What {
    // What is asked in these words; words that are too many stay too many.
    pub fn new(words: &[u8]) -> What
        ensures fit { length words.now ≤ 1024 → result ≡ what_in words.now }
        ensures many { 1024 < length words.now → 1024 < result.len }
        ensures len { length words.now ≤ 65535 → result.len ≡ length words.now }
        ensures most { 65535 < length words.now → result.len ≡ 65535 }
        ensures bytes { 1024 < length words.now → result.bytes ≡ take 1024 words.now }
    {
        let fit = words.len().min(1024);
        What {
            len: short(words.len()),
            bytes: padded(&words[..fit]),
        }
    }

    // The words themselves.
    pub fn words(&self) -> &[u8]
        ensures words { result.now ≡ words_in self.now }
        ensures most { length result.now ≤ 1024 }
    {
        let len = usize::from(self.len).min(1024);
        &self.bytes[..len]
    }
}

// A ticket: for which service, whose it is, the session key, and until when it is good.
#[derive(Clone, Copy)]
pub struct Ticket {
    pub service: u16,
    pub reader: u16,
    pub key: Key,
    pub until: u64,
}

// A letter: the number of the login or asking that it answers, the service, the session key, and until when.
#[derive(Clone, Copy)]
pub struct Letter {
    pub number: Number,
    pub service: u16,
    pub key: Key,
    pub until: u64,
}

// A login: its number, and the tick at which it was begun.
#[derive(Clone, Copy)]
pub struct Login {
    pub number: Number,
    pub tick: u64,
}

// An asking: for which service, its number, what is asked, and the tick.
#[derive(Clone, Copy)]
pub struct Asking {
    pub service: u16,
    pub number: Number,
    pub what: What,
    pub tick: u64,
}

// A receipt: the number of the asking that was done.
#[derive(Clone, Copy)]
pub struct Receipt {
    pub number: Number,
}
