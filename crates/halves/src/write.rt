// Writing to the halves by turns, and the start of a device.
ghost use Rattle.std.specs.Prelude.{◌≡◌, ◌-◌, ◌≤◌, length, is_ok};
ghost use Rattle.std.specs.Result.{result_ok};
ghost use Rattle.halves.specs.Blocks.{Writes};
ghost use Rattle.halves.specs.Half.{half as half_of, payload_in};
ghost use Rattle.halves.specs.Halves.{Makes, Starts, Tried, full, is_new, makes, target, whether};

use super::device::Device;
use super::format::Format;
use super::half::{AROUND, Half, is_zero, sum_of};
use super::halves::Halves;
use super::turns::known;
use super::which::Which;
use parts::NotWritten;

// Makes a half of lent bytes in which a payload stands, the turn before it and the sum behind it, and writes it.
fn put_half<D: Device>(
    device: &mut D,
    which: Which,
    turn: u64,
    bytes: &mut [u8],
) -> Result<Half, NotWritten>
    requires { 24 ≤ length bytes.old }
    ensures device { Writes which (half_of turn (payload_in bytes.old)) (D.blocks device.old) (is_ok result) (D.blocks device.new) }
    ensures bytes { bytes.new ≡ half_of turn (payload_in bytes.old) }
    ensures half { result_ok result ≡ whether (is_ok result) turn (length bytes.old - 24) }
{
    let end = bytes.len() - 16;
    bytes[..8].copy_from_slice(&turn.to_be_bytes());
    let sum = sum_of(&bytes[..end]);
    bytes[end..].copy_from_slice(&sum);
    device.write(which, bytes)?;
    Ok(Half { turn, len: end - 8 })
}

// Makes a new device: the first half with turn 1, then the second with turn 2. One that is not written is junk.
fn make<D: Device>(device: &mut D, bytes: &mut [u8]) -> Halves
    requires { 24 ≤ length bytes.old }
    ensures { Makes (D.blocks device.old) bytes.old result (D.blocks device.new) bytes.new }
{
    let first = put_half(device, Which::First, 1, bytes).ok();
    let second = put_half(device, Which::Second, 2, bytes).ok();
    known(first, second, 2)
}

// Is a block of full length, and nothing but zeros?
// This and the two below are functions; a type for what they look at would be named nowhere else.
fn is_full_zero(block: &[u8], most: usize) -> bool
    ensures { result ≡ full most block.now }
{
    block.len() >= AROUND && block.len() - AROUND == most && is_zero(block)
}

// Are both blocks of full length, and nothing but zeros?
fn is_new<D: Device>(device: &D, most: usize) -> bool
    ensures { result ≡ is_new most (D.blocks device.now) }
{
    is_full_zero(device.read(Which::First), most) && is_full_zero(device.read(Which::Second), most)
}

// Is a device to be made anew, and is there room for a half in the lent bytes?
fn is_to_make<D: Device>(device: &D, most: usize, bytes: &[u8]) -> bool
    ensures { result ≡ makes most (D.blocks device.now) bytes.now }
{
    bytes.len() >= AROUND && is_new(device, most)
}

impl Halves {
    // Every start: a new device is made, with the payload that stands in lent bytes; any other is read.
    pub fn start<D: Device, F: Format>(device: &mut D, format: &F, bytes: &mut [u8]) -> Halves
        ensures { Starts (makes (F.most format.now) (D.blocks device.old) bytes.old) (F.measured format.now) (D.blocks device.old) bytes.old result (D.blocks device.new) bytes.new }
    {
        if is_to_make(device, format.most(), bytes) {
            return make(device, bytes);
        }
        Halves::read(device, format)
    }

    // Writes the payload that stands in lent bytes, between room for the turn and room for the sum, to the half whose turn it is. The turn moves only if the device wrote it.
    pub fn write<D: Device>(&mut self, device: &mut D, bytes: &mut [u8]) -> Result<(), NotWritten>
        ensures { Tried (target self.old bytes.old) self.old (D.blocks device.old) bytes.old (is_ok result) self.new (D.blocks device.new) bytes.new }
    {
        let len = bytes.len().checked_sub(AROUND).ok_or(NotWritten)?;
        let to = self.next(len).ok_or(NotWritten)?;
        put_half(device, to.which, to.half.turn, bytes)?;
        self.junk = self.newest.is_none();
        self.newest = Some(to);
        Ok(())
    }
}
