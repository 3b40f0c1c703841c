// The kinds of words.
ghost use Rattle.std.specs.Prelude.{◌≡◌};
ghost use Rattle.wire.specs.Kind.{kind_from, kind_number};

use parts::Fault;

// What a word is; its number is the first byte.
#[derive(Clone, Copy, PartialEq, Eq)]
pub enum WordKind {
    Login = 1,
    TicketAndLetter = 2,
    Asking = 3,
    Receipt = 4,
    Refusal = 5,
}

impl WordKind {
    // The first byte of its words.
    pub fn number(self) -> u8
        ensures { result ≡ kind_number self }
    {
        self as u8
    }
}

impl TryFrom<u8> for WordKind {
    type Error = Fault;

    ghost try_from_gives = { λ byte r. r ≡ kind_from byte };

    // The kind of a word that begins with this byte.
    fn try_from(byte: u8) -> Result<WordKind, Fault> {
        match byte {
            1 => Ok(WordKind::Login),
            2 => Ok(WordKind::TicketAndLetter),
            3 => Ok(WordKind::Asking),
            4 => Ok(WordKind::Receipt),
            5 => Ok(WordKind::Refusal),
            _ => Err(Fault::Malformed),
        }
    }
}
