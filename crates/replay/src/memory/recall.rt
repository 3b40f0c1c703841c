// How the memory remembers, and how it starts.
ghost use Rattle.std.specs.Prelude.{◌≡◌, ◌<◌, ◌≤◌, not, ◌&&◌, length, is_ok, IfOk};
ghost use Rattle.halves.specs.Blocks.{block};
ghost use Rattle.parts.specs.declared.account.Entry.{Entry};
ghost use Rattle.replay.specs.Replay.{Begun, Moved, Notes, Recorded, latest, latest_in};
ghost use Rattle.service_rules.specs.Memory.{live_of};
ghost use Rattle.std.proofs.Common.{rules};

use super::ReplayMemory;
use entries::{Entries, compose, highest_at, load};
use halves::{Device, Halves, Which, decode, part};
use parts::{Clock, Entry, NotWritten};
use service_rules::{Memory, ROOM, highest_in, live_in, remember, stands_in};
use std::alloc::{AllocError, Global};

// How many bytes a half has.
const HALF: usize = 196634;

// The highest tick that a half remembers, if it is good.
fn latest_in<D: Device>(device: &D, which: Which) -> u64
    ensures { result ≡ latest_in (block which (D.blocks device.now)) }
{
    let block = device.read(which);
    decode(&Entries, block).map_or(0, |half| highest_at(part(block, half.len)))
}

// Writes those that are not forgotten and a new one to the half whose turn it is.
// It is no method, since the proof of one loses the length of `half` once a part of it is lent on.
fn write_down<D: Device>(
    halves: &mut Halves,
    device: &mut D,
    half: &mut [u8],
    entries: &[Entry],
    digest: u128,
    clock: Clock,
) -> Result<(), NotWritten>
    requires { (length (live_of clock.tick clock.lag entries.now) < 8192) × (196634 ≤ length half.old) }
    ensures { Recorded clock.tick clock.lag digest entries.now halves.old (D.blocks device.old) (is_ok result) halves.new (D.blocks device.new) }
{
    let end = compose(half, entries, digest, clock);
    halves.write(device, &mut half[..end + 16])
}

impl<D: Device + Drop> ReplayMemory<D> {
    // Every start is a recovery: a device of zeros is new, and of any other the newest good half counts. Where there is no memory, the device is as it was.
    pub fn start(heap: Global, device: D) -> Result<ReplayMemory<D>, AllocError>
        ensures { IfOk result (λ m. Begun (D.blocks device) m.halves (D.blocks m.device) m.entries.items m.junk) }
    {
        let mut entries = Vec::with_capacity(heap, ROOM)?;
        let half = vec![in heap; 0u8; HALF]?;
        let mut device = device;
        let mut nothing = [0u8; 26];
        let halves = Halves::start(&mut device, &Entries, &mut nothing);
        load(halves.payload(&device), &mut entries);
        let junk = halves.junk;
        Ok(ReplayMemory {
            device,
            halves,
            junk,
            writes: true,
            entries,
            half,
        })
    }

    // Writes down a thing that is to be done, with those that are not forgotten; only if it is written are the old ones forgotten and it is remembered.
    pub fn note(&mut self, digest: u128, clock: Clock) -> Result<(), NotWritten>
        requires { length (live_of clock.tick clock.lag self.old.entries.items) < 8192 }
        ensures notes { Notes clock.tick clock.lag digest self.old.entries.items self.old.halves (D.blocks self.old.device) (is_ok result) self.new.entries.items self.new.halves (D.blocks self.new.device) }
        ensures junk { self.new.junk ≡ (not (is_ok result) && self.old.junk) }
        ensures writes { self.new.writes ≡ is_ok result }
    {
        let written = write_down(
            &mut self.halves,
            &mut self.device,
            self.half.as_mut_slice(),
            self.entries.as_slice(),
            digest,
            clock,
        );
        self.writes = written.is_ok();
        written?;
        remember(&mut self.entries, digest, clock);
        self.junk = false;
        Ok(())
    }

    // The highest tick that either good half on the device remembers: a start at an earlier one is to be refused.
    pub fn latest(&self) -> u64
        ensures { result ≡ latest (D.blocks self.now.device) }
    {
        latest_in(&self.device, Which::First).max(latest_in(&self.device, Which::Second))
    }

    // The device alone, as a crash leaves it.
    pub fn into_device(self) -> D
        ensures { result ≡ self.device }
    {
        let ReplayMemory { device, .. } = self;
        device
    }
}

impl<D: Device + Drop> Memory for ReplayMemory<D> {
    ghost kept = { λ m. m.entries.items };

    ghost junk = { λ m. m.junk };

    ghost writes = { λ m. m.writes };

    ghost keeps = { λ m n. Moved m.entries.items m.halves (D.Device.blocks m.device) n.writes n.entries.items n.halves (D.Device.blocks n.device) };

    ghost same = { Prim.search rules };

    fn stands(&self, digest: u128, clock: Clock) -> bool {
        stands_in(self.entries.as_slice(), digest, clock)
    }

    fn live(&self, clock: Clock) -> usize {
        live_in(self.entries.as_slice(), clock)
    }

    fn highest(&self) -> u64 {
        highest_in(self.entries.as_slice())
    }

    fn junk(&self) -> bool {
        self.junk
    }

    fn record(&mut self, digest: u128, clock: Clock) -> Result<(), NotWritten> {
        self.note(digest, clock)
    }
}
