// Entries in order: what still stands among them, and forgetting in place.
ghost use Rattle.std.specs.Prelude.{◌≡◌, ◌<◌, ◌≤◌, length, vec_capacity};
ghost use Rattle.service_rules.specs.Memory.{highest, live_of, recorded, stands};

use parts::{Clock, Entry};

// Does a digest stand among those that are not forgotten yet?
pub fn stands_in(entries: &[Entry], digest: u128, clock: Clock) -> bool
    ensures { result ≡ stands digest (live_of clock.tick clock.lag entries.now) }
{
    entries.iter().any(|entry| clock.is_live(entry.tick) && entry.digest == digest)
}

// How many are not forgotten yet?
pub fn live_in(entries: &[Entry], clock: Clock) -> usize
    ensures { result ≡ length (live_of clock.tick clock.lag entries.now) }
{
    entries
        .iter()
        .filter(|entry| clock.is_live(entry.tick))
        .count()
}

// The highest tick, 0 if there is none.
// No Option: a start asks only that no tick remembered is above its own.
pub fn highest_in(entries: &[Entry]) -> u64
    ensures { result ≡ highest entries.now }
{
    entries.iter().map(|entry| entry.tick).max().unwrap_or(0)
}

// Keeps those that are not forgotten yet, in their order.
pub fn forget(entries: &mut Vec<Entry>, clock: Clock)
    ensures items { entries.new.items ≡ live_of clock.tick clock.lag entries.old.items }
    ensures capacity { vec_capacity entries.new ≡ vec_capacity entries.old }
{
    entries.retain(|entry| clock.is_live(entry.tick));
}

// Forgets what is old, and adds a new one at the end, where room was made before.
pub fn remember(entries: &mut Vec<Entry>, digest: u128, clock: Clock)
    requires { (length (live_of clock.tick clock.lag entries.old.items) < 8192) × (8192 ≤ vec_capacity entries.old) }
    ensures items { entries.new.items ≡ recorded clock.tick clock.lag digest entries.old.items }
    ensures capacity { vec_capacity entries.new ≡ vec_capacity entries.old }
{
    forget(entries, clock);
    let tick = clock.tick;
    entries.push_reserved(Entry { digest, tick });
}
