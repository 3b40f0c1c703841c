// Entries in bytes: how many (2), then each as digest (16) and tick (8).
ghost use Rattle.std.specs.Prelude.{◌≡◌, ◌+◌, ◌-◌, ◌*◌, ◌<◌, ◌≤◌, ◌++◌, length, map, take, vec_len, vec_capacity};
ghost use Rattle.entries.specs.Bytes.{count_in, entry_bytes, entry_of, packed, unpacked};
ghost use Rattle.service_rules.specs.Memory.{highest, live_of, recorded};
ghost use Rattle.std.specs.List.{flat_map};

use super::format::Entries;
use contents::{array_at, put};
use halves::Format;
use parts::{Clock, Entry};
use service_rules::live_in;

// How many bytes an entry has.
pub(crate) const ENTRY: usize = 24;

// Writes an entry at a place.
fn put_entry(out: &mut [u8], at: usize, entry: Entry)
    requires { at + 24 ≤ length out.old }
    ensures { take (at + 24) out.new ≡ take at out.old ++ entry_bytes entry }
{
    put(out, at, &entry.digest.to_be_bytes());
    put(out, at + 16, &entry.tick.to_be_bytes());
}

// Writes those that are not forgotten yet from a place on, and says where they end.
// The place is counted, since `chunks_exact_mut` says nothing of what was written through its parts.
fn put_live(out: &mut [u8], from: usize, entries: &[Entry], clock: Clock) -> usize
    requires { from + 24 * length (live_of clock.tick clock.lag entries.now) ≤ length out.old }
    ensures end { result ≡ from + 24 * length (live_of clock.tick clock.lag entries.now) }
    ensures out { take result out.new ≡ take from out.old ++ flat_map entry_bytes (live_of clock.tick clock.lag entries.now) }
{
    let mut at = from;
    for entry in entries {
        if clock.is_live(entry.tick) {
            put_entry(out, at, *entry);
            at += ENTRY;
        }
    }
    at
}

// Writes those that are not forgotten yet and a new one, behind eight bytes that stay, and says where they end.
// It says where they end, since a half goes on behind them, in a memory of a fixed length.
pub fn compose(out: &mut [u8], entries: &[Entry], digest: u128, clock: Clock) -> usize
    requires { (length (live_of clock.tick clock.lag entries.now) < 8192) × (196634 ≤ length out.old) }
    ensures end { result ≡ 8 + length (packed (recorded clock.tick clock.lag digest entries.now)) }
    ensures out { take result out.new ≡ take 8 out.old ++ packed (recorded clock.tick clock.lag digest entries.now) }
    ensures bound { result ≤ 196618 }
{
    let count = live_in(entries, clock) + 1;
    put(out, 8, &(count as u16).to_be_bytes());
    let at = put_live(out, 10, entries, clock);
    let tick = clock.tick;
    put_entry(out, at, Entry { digest, tick });
    at + ENTRY
}

// Each entry in its bytes; none, if they are too many or not all there.
fn packed_in(bytes: &[u8]) -> &[[u8; ENTRY]]
    ensures value { map entry_of result.now ≡ unpacked bytes.now }
    ensures count { length result.now ≡ count_in bytes.now }
    ensures room { length result.now ≤ 8192 }
    ensures bound { 24 * length result.now ≤ length bytes.now - 2 }
{
    match Entries.measure(bytes) {
        Some(end) if end <= bytes.len() => bytes[2..end].as_chunks().0,
        _ => &[],
    }
}

// How many entries are there? None, if they are too many or not all there.
pub fn count_in(bytes: &[u8]) -> usize
    ensures value { result ≡ count_in bytes.now }
    ensures room { result ≤ 8192 }
    ensures bound { 24 * result ≤ length bytes.now - 2 }
{
    packed_in(bytes).len()
}

// The entry in its bytes.
fn unpack(bytes: &[u8; ENTRY]) -> Entry
    ensures { result ≡ entry_of bytes.now }
{
    Entry {
        digest: u128::from_be_bytes(array_at(bytes, 0)),
        tick: u64::from_be_bytes(array_at(bytes, 16)),
    }
}

// Reads the entries into a list that is empty and has room for them.
pub fn load(bytes: &[u8], entries: &mut Vec<Entry>)
    requires { (vec_len entries.old ≡ 0) × (8192 ≤ vec_capacity entries.old) }
    ensures entries { entries.new.items ≡ unpacked bytes.now }
    ensures room { 8192 ≤ vec_capacity entries.new }
{
    for bytes in packed_in(bytes) {
        entries.push_reserved(unpack(bytes));
    }
}

// The highest tick of the entries in some bytes, 0 if there is none.
pub fn highest_at(bytes: &[u8]) -> u64
    ensures { result ≡ highest (unpacked bytes.now) }
{
    packed_in(bytes)
        .iter()
        .map(|bytes| unpack(bytes).tick)
        .max()
        .unwrap_or(0)
}
