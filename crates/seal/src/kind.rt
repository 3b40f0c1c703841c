// The kinds of locks: a lock of one kind does not open as another.
ghost use Rattle.std.specs.Prelude.{◌≡◌};
ghost use Rattle.seal.specs.Kind.{number_of, Numbers};

// What a lock is over.
#[derive(Clone, Copy, Debug, PartialEq, Eq)]
pub enum Kind {
    Ticket = 1,
    Letter = 2,
    Asking = 3,
    Login = 4,
    Receipt = 5,
}

// A number that no kind has.
#[derive(Clone, Copy, Debug, PartialEq, Eq)]
pub struct NoKind;

impl Kind {
    // The number that goes into the keys and sums of the kind's locks.
    pub fn number(self) -> u8
        ensures { result ≡ number_of self }
    {
        self as u8
    }
}

impl TryFrom<u64> for Kind {
    type Error = NoKind;

    ghost try_from_gives = { Numbers };

    fn try_from(number: u64) -> Result<Kind, NoKind> {
        match number {
            1 => Ok(Kind::Ticket),
            2 => Ok(Kind::Letter),
            3 => Ok(Kind::Asking),
            4 => Ok(Kind::Login),
            5 => Ok(Kind::Receipt),
            _ => Err(NoKind),
        }
    }
}
