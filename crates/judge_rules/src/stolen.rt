// Whose own key had been stolen.
ghost use Rattle.judge_rules.specs.Judge.{is_key_in, key_of, robbed, seen};
ghost use Rattle.std.specs.List.{find};
ghost use Rattle.std.specs.Option.{option_map};
ghost use Rattle.std.specs.Prelude.{◌≡◌, ◌==◌};

use super::record::{Judge, Principal};
use parts::Key;

// Who has a number.
// Here and in `key_of` over a list, where a number may stand twice: the first in it counts, as is promised.
fn named(number: u16, principals: &[Principal]) -> Option<&Principal>
    ensures { option_map (λ p. p.now) result ≡ find (λ p. p.number == number) principals.now }
{
    principals
        .iter()
        .find(|principal| principal.number == number)
}

// The own key of a number.
pub(super) fn key_of(number: u16, principals: &[Principal]) -> Option<Key>
    ensures { result ≡ key_of number principals.now }
{
    named(number, principals).map(|principal| principal.key)
}

// Is a key among these?
fn is_key_in(key: &Key, keys: &[Key]) -> bool
    ensures { result ≡ is_key_in key.now keys.now }
{
    keys.iter().any(|one| one == key)
}

impl Judge {
    // Had the own key of this number been stolen?
    pub(super) fn is_robbed(&self, number: u16) -> bool
        ensures { result ≡ robbed (seen self.now) number }
    {
        key_of(number, &self.principals).is_some_and(|key| is_key_in(&key, &self.stolen))
    }
}
