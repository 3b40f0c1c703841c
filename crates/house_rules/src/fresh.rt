// The drawn bytes of a grant.
ghost use Rattle.std.specs.Prelude.{◌≡◌, ◌≤◌, length, drop};
ghost use Rattle.house_rules.specs.Fresh.{fresh_of};

use parts::{Drawn, Key, Salt, take};

// How many bytes a grant draws.
pub(crate) const DRAWN: usize = 64;

// What a grant draws: the session key, and the bytes for the ticket's and the letter's lock.
#[derive(Clone, Copy)]
pub struct Fresh {
    pub key: Key,
    pub ticket: Salt,
    pub letter: Salt,
}

// Uses up the next 64 bytes.
pub(crate) fn draw<D: Drawn>(drawn: &mut D) -> Fresh
    requires { 64 ≤ length (D.left drawn.old) }
    ensures value { result ≡ fresh_of (D.left drawn.old) }
    ensures rest { D.left drawn.new ≡ drop 64 (D.left drawn.old) }
{
    let key = Key(take(drawn));
    let ticket = Salt(take(drawn));
    let letter = Salt(take(drawn));
    Fresh {
        key,
        ticket,
        letter,
    }
}
