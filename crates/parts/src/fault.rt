// Why something is refused: the faults, their numbers in the book, and the classes that a refusal tells.
ghost use Rattle.parts.specs.Fault.{class_from, class_number, class_of, fault_number};
ghost use Rattle.std.specs.Prelude.{◌≡◌};

// Each cause of a refusal.
#[derive(Clone, Copy, PartialEq, Eq)]
pub enum Fault {
    // an unknown kind of word, or a bad length
    Malformed = 1,
    // a number that isn't there
    Unknown = 2,
    // a lock that doesn't open
    LockFails = 3,
    // what is inside a lock can't be read, or is of another kind
    BadInside = 4,
    // an account that is closed
    AccountClosed = 5,
    // a tick that isn't of lately
    NotLately = 6,
    // a ticket that is over
    TicketOver = 7,
    // done before
    DoneBefore = 8,
    // no room to remember
    NoRoom = 9,
    // a ticket or an asking for another service, or an asking for the house as a service
    WrongService = 10,
    // a letter or a receipt for nothing that is under way
    NotUnderWay = 11,
    // drawn bytes used up
    NoDrawnBytes = 12,
    // settings or a tick out of range, a line or a file of accounts that can't be read
    OutOfRange = 13,
    // it waits after a crash, or the device doesn't write
    NotNow = 14,
}

// What a refusal tells the other side.
#[derive(Clone, Copy, PartialEq, Eq)]
pub enum Class {
    NotReadable = 1,
    NotNow = 2,
    NotYou = 3,
}

impl Fault {
    // The number that stands in the book.
    pub fn number(self) -> u8
        ensures { result ≡ fault_number self }
    {
        self as u8
    }

    // What a refusal for it tells the other side; none where it is answered by nothing.
    pub fn class(self) -> Option<Class>
        ensures { result ≡ class_of self }
    {
        match self {
            Fault::Malformed => Some(Class::NotReadable),
            Fault::NotLately
            | Fault::TicketOver
            | Fault::DoneBefore
            | Fault::NoRoom
            | Fault::NoDrawnBytes
            | Fault::NotNow => Some(Class::NotNow),
            Fault::Unknown
            | Fault::LockFails
            | Fault::BadInside
            | Fault::AccountClosed
            | Fault::WrongService => Some(Class::NotYou),
            Fault::NotUnderWay | Fault::OutOfRange => None,
        }
    }
}

impl Class {
    // The byte that stands for it in a refusal.
    pub fn number(self) -> u8
        ensures { result ≡ class_number self }
    {
        self as u8
    }
}

impl TryFrom<u8> for Class {
    type Error = Fault;

    ghost try_from_gives = { λ byte r. r ≡ class_from byte };

    // The class that a byte stands for; a byte that stands for none makes a word malformed.
    fn try_from(byte: u8) -> Result<Class, Fault> {
        match byte {
            1 => Ok(Class::NotReadable),
            2 => Ok(Class::NotNow),
            3 => Ok(Class::NotYou),
            _ => Err(Fault::Malformed),
        }
    }
}
