// The memory's device in bytes, what cut writes leave, and twelve damages: each ends in remembering or in waiting.
#![tactic(auto)]

use halves::{Device, Which};
use memory_device::{Ends, MemoryDevice};
use parts::{Clock, NotWritten};
use replay::ReplayMemory;
use service_rules::{Memory, ROOM};
use std::alloc::{AllocError, Global};

// How many bytes a block has.
const SIZE: usize = 196634;

// Two things that are done, and the lag.
const ONE: u128 = 0xbfcf621e47c5e44a5fc17d937e5ec279;

const TWO: u128 = 0x4fe1ac1a063bc8eaf4a61ec0ec0a8251;

const LAG: u64 = 5;

// What can happen to a file of two halves, of which the second is the newer. One that is gone or has another length is made anew, of bytes 255.
// A damage is a value, so that a table has a name and a damage in each line.
#[derive(Clone, Copy)]
enum Damage {
    None,
    Anew,
    Noise,
    Zeros,
    Bit(usize),
    Older,
}

// The twelve damages, after none.
const TABLE: [(&str, Damage); 13] = [
    ("none", Damage::None),
    ("truncated to 0 bytes", Damage::Anew),
    ("truncated to 7 bytes", Damage::Anew),
    ("truncated to 16 bytes", Damage::Anew),
    ("last 5 bytes cut", Damage::Anew),
    ("noise", Damage::Noise),
    ("zeros in the newer half", Damage::Zeros),
    ("a bit in the turn", Damage::Bit(7)),
    ("a bit in the count", Damage::Bit(9)),
    ("a bit in an entry", Damage::Bit(12)),
    ("a bit in the sum", Damage::Bit(60)),
    ("an older copy of the older half", Damage::Older),
    ("the file gone", Damage::Anew),
];

// The two halves of a file, and an older copy of the first.
#[derive(Clone, Copy)]
struct Copies<'a> {
    first: &'a [u8],
    second: &'a [u8],
    older: &'a [u8],
}

// The clock at a tick.
fn at(tick: u64) -> Clock {
    Clock { tick, lag: LAG }
}

// Records a thing, if there is room.
fn record(
    memory: &mut ReplayMemory<MemoryDevice>,
    digest: u128,
    clock: Clock,
) -> Result<(), NotWritten> {
    if memory.live(clock) >= ROOM {
        return Err(NotWritten);
    }
    memory.record(digest, clock)
}

// Bytes in hex.
fn show(rt: &HostRuntime, name: &str, bytes: &[u8], count: usize) -> anyhow::Result<()> {
    print!(rt; "{name} ")?;
    for byte in bytes.iter().take(count) {
        print!(rt; "{byte:02x}")?;
    }
    println!(rt; "")?;
    Ok(())
}

// Flips one bit. As the noise below it also stands in account_tests: a crate for both would need a definition of the noise and a proof.
fn flip(bytes: &mut [u8], at: usize) {
    if let Some(byte) = bytes.get_mut(at) {
        *byte ^= 1;
    }
}

// Bytes without any order.
fn noise(bytes: &mut [u8]) {
    let mut seed = 12345u32;
    for byte in bytes {
        seed = seed.wrapping_mul(1664525).wrapping_add(1013904223);
        *byte = (seed >> 24) as u8;
    }
}

// The device that a start finds after a damage.
fn damaged(heap: Global, damage: Damage, copies: Copies<'_>) -> Result<MemoryDevice, AllocError> {
    let mut first = Vec::from_slice(heap, copies.first)?;
    let mut second = Vec::from_slice(heap, copies.second)?;
    match damage {
        Damage::None => {}
        Damage::Anew => {
            first.as_mut_slice().fill(255);
            second.as_mut_slice().fill(255);
        }
        Damage::Noise => {
            noise(first.as_mut_slice());
            noise(second.as_mut_slice());
        }
        Damage::Zeros => second.as_mut_slice().fill(0),
        Damage::Bit(at) => flip(second.as_mut_slice(), at),
        Damage::Older => {
            drop(first);
            first = Vec::from_slice(heap, copies.older)?;
        }
    }
    Ok(MemoryDevice::of(first, second))
}

// What a start makes of a device.
// No Display: words of this table alone.
fn outcome(memory: &ReplayMemory<MemoryDevice>) -> &'static str {
    if memory.junk() {
        "waits"
    } else if memory.stands(ONE, at(101)) && memory.stands(TWO, at(101)) {
        "remembers"
    } else {
        "FORGETS"
    }
}

// Whether something is so.
// No Display: words of this table alone.
fn say(rt: &HostRuntime, what: &str, is: bool) -> anyhow::Result<()> {
    let answer = if is { "yes" } else { "no" };
    print!(rt; " {what} {answer}")?;
    Ok(())
}

// A memory on a device in which one thing was recorded, and whose next write ends so.
fn prepared(heap: Global, ends: Ends) -> Result<ReplayMemory<MemoryDevice>, AllocError> {
    let device = MemoryDevice::filled(heap, SIZE, 0)?;
    let mut memory = ReplayMemory::start(heap, device)?;
    let _ = record(&mut memory, ONE, at(100));
    let mut device = memory.into_device();
    device.set_ends(ends);
    ReplayMemory::start(heap, device)
}

// What a start finds after the second recording ended so.
fn cut(rt: &HostRuntime, name: &str, ends: Ends) -> anyhow::Result<()> {
    let mut memory = prepared(rt.alloc(), ends)?;
    print!(rt; "{name}:")?;
    say(rt, "told", record(&mut memory, TWO, at(101)).is_ok())?;
    let memory = ReplayMemory::start(rt.alloc(), memory.into_device())?;
    say(rt, "first", memory.stands(ONE, at(101)))?;
    say(rt, "second", memory.stands(TWO, at(101)))?;
    say(rt, "junk", memory.junk())?;
    println!(rt; "")?;
    Ok(())
}

// The table, a line for each damage.
fn table(rt: &HostRuntime, copies: Copies<'_>) -> anyhow::Result<()> {
    for (name, damage) in TABLE {
        let device = damaged(rt.alloc(), damage, copies)?;
        let memory = ReplayMemory::start(rt.alloc(), device)?;
        let outcome = outcome(&memory);
        println!(rt; "{name}: {outcome}")?;
    }
    Ok(())
}

fn main(rt: HostRuntime) -> anyhow::Result<()> {
    let device = MemoryDevice::filled(rt.alloc(), SIZE, 0)?;
    let device = ReplayMemory::start(rt.alloc(), device)?.into_device();
    show(&rt, "empty half, turn 1", device.read(Which::First), 26)?;
    show(&rt, "empty half, turn 2", device.read(Which::Second), 26)?;
    let older = Vec::from_slice(rt.alloc(), device.read(Which::First))?;
    let mut memory = ReplayMemory::start(rt.alloc(), device)?;
    let _ = record(&mut memory, ONE, at(100));
    let _ = record(&mut memory, TWO, at(101));
    let device = memory.into_device();
    show(&rt, "one thing, turn 3", device.read(Which::First), 50)?;
    for (name, ends) in [
        ("cut, the old left", Ends::Old),
        ("cut, the new left", Ends::New),
        ("cut, junk left", Ends::Junk),
        ("not cut", Ends::Done),
    ] {
        cut(&rt, name, ends)?;
    }
    let copies = Copies {
        first: device.read(Which::First),
        second: device.read(Which::Second),
        older: older.as_slice(),
    };
    table(&rt, copies)
}
