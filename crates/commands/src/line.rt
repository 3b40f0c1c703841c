// What a line of a script says. The bytes that it gives stay in its text, in hex.
use held::Cut;
use parts::Key;
use seal::Kind;

// What a town starts with.
#[derive(Clone, Copy)]
pub struct Settings {
    pub tick: u64,
    pub life: u64,
    pub lag: u64,
    pub seed: Key,
}

// A reader or a service: its number and its own key.
#[derive(Clone, Copy)]
pub struct Account {
    pub number: u16,
    pub key: Key,
}

// The house, a service, or the box of a reader.
#[derive(Clone, Copy)]
pub enum Side {
    House,
    Service(u16),
    Reader(u16),
}

// A reader's line, at the box of that reader; by no ticket it logs in.
#[derive(Clone, Copy)]
pub struct Want<'a> {
    pub reader: u64,
    pub service: u64,
    pub ticket: Option<u64>,
    pub what: &'a [u8],
}

// Which lock of its word.
// Not a half of a device: which lock of a word a line names.
#[derive(Clone, Copy)]
pub enum Place {
    First,
    Second,
}

// A lock of a word that was sent or made.
#[derive(Clone, Copy)]
pub struct Piece {
    pub word: u64,
    pub place: Place,
}

// A new word from locks of others.
#[derive(Clone, Copy)]
pub enum Join {
    // join 1 READER W.I
    Login { reader: u16, lock: Piece },
    // join 2 W.I W.J
    Letter { ticket: Piece, letter: Piece },
    // join 3 W.I W.J
    Asking { ticket: Piece, asking: Piece },
}

// A lock to be made.
#[derive(Clone, Copy)]
pub struct NewLock<'a> {
    pub kind: Kind,
    pub key: Key,
    pub inside: &'a [u8],
}

// A lock to be opened.
#[derive(Clone, Copy)]
pub struct Opening {
    pub lock: Piece,
    pub kind: Kind,
    pub key: Key,
}

// What a line says.
#[derive(Clone, Copy)]
pub enum Line<'a> {
    // An empty line or a comment.
    Blank,
    // town TICK LIFE LAG SEED
    Town(Settings),
    // reader N KEY
    Reader(Account),
    // service N KEY
    Service(Account),
    // tick N
    Tick(u64),
    // want READER SERVICE TICKET WHAT
    Want(Want<'a>),
    // close N
    Close(u64),
    // hold K
    Hold(u64),
    // repeat W SIDE
    Repeat { word: u64, side: Side },
    // join KIND ..
    Join(Join),
    // steal N
    Steal(u64),
    // lock KIND KEY INSIDE
    Lock(NewLock<'a>),
    // unlock W.I KIND KEY
    Unlock(Opening),
    // bytes HEX
    Bytes(&'a [u8]),
    // fall SIDE
    Fall(Side),
    // cut SIDE and what the cut write leaves: old, new or junk
    Cut { side: Side, left: Cut<()> },
    // device SIDE ok or fail
    // A flag, for `ok` or `fail`: neither of the two says anything more.
    Device { side: Side, writes: bool },
}
