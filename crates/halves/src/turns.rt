// Two halves by turns: which is newer, and where the next write goes.
ghost use Rattle.halves.specs.Blocks.{other as other_of};
ghost use Rattle.halves.specs.Halves.{known_of, last_of, next_of, part_of, payload_of, standing, which_of};
ghost use Rattle.std.specs.Prelude.{◌≡◌};

use super::device::Device;
use super::format::Format;
use super::half::{Half, decode};
use super::halves::{Good, Halves};
use super::which::Which;

impl Which {
    // The other half.
    pub fn other(self) -> Which
        ensures { result ≡ other_of self }
    {
        match self {
            Which::First => Which::Second,
            Which::Second => Which::First,
        }
    }
}

// What is known of two halves, by what each is, where no turn above `last` is hidden in junk. The newer has the higher turn; it is the first if they have one turn.
pub(crate) fn known(first: Option<Half>, second: Option<Half>, last: u64) -> Halves
    ensures { result ≡ known_of last first second }
{
    let (which, newest) = match (first, second) {
        (Some(a), Some(b)) if a.turn < b.turn => (Which::Second, second),
        (None, _) => (Which::Second, second),
        (Some(_), _) => (Which::First, first),
    };
    Halves {
        newest: newest.map(|half| Good { which, half }),
        junk: first.is_none() || second.is_none(),
        last,
    }
}

// The payload of so many bytes in a block, or what is there of it.
pub fn part(block: &[u8], len: usize) -> &[u8]
    ensures { result.now ≡ part_of len block.now }
{
    let rest = block.get(8..).unwrap_or(&[]);
    rest.get(..len).unwrap_or(rest)
}

impl Halves {
    // What stands on a device.
    pub fn read<D: Device, F: Format>(device: &D, format: &F) -> Halves
        ensures { result ≡ standing (F.measured format.now) (D.blocks device.now) }
    {
        known(
            decode(format, device.read(Which::First)),
            decode(format, device.read(Which::Second)),
            0,
        )
    }

    // The half that is written next: not the newest good one.
    fn which_next(&self) -> Which
        ensures { result ≡ which_of self.now }
    {
        self.newest
            .map_or(Which::First, |newest| newest.which.other())
    }

    // The turn that is followed.
    fn last_turn(&self) -> u64
        ensures { result ≡ last_of self.now }
    {
        self.newest.map_or(self.last, |newest| newest.half.turn)
    }

    // Where the next payload goes, of so many bytes, and with which turn; the last turn of all can't be followed.
    pub fn next(&self, len: usize) -> Option<Good>
        ensures { result ≡ next_of self.now len }
    {
        let turn = self.last_turn().checked_add(1)?;
        Some(Good {
            which: self.which_next(),
            half: Half { turn, len },
        })
    }

    // The payload that counts: that of the newest good half, no bytes if there is none.
    // No bytes and no Option: whoever reads a payload goes by its length anyway.
    pub fn payload<'a, D: Device>(&self, device: &'a D) -> &'a [u8]
        ensures { result.now ≡ payload_of self.now.newest (D.blocks device.now) }
    {
        match self.newest {
            None => &[],
            Some(good) => part(device.read(good.which), good.half.len),
        }
    }
}
