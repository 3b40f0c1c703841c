// What can happen to an accounts file: reader 5 was closed, and then 7, so that the second half is the newer.
use accounts::{AccountFile, HALF};
use anyhow::anyhow;
use halves::{Device, Which};
use hash::sha256;
use house_rules::{close_account, open_account};
use memory_device::MemoryDevice;
use parts::Key;
use std::alloc::{AllocError, Global};

// A damage is a value, so that a table has a name and a damage in each line.
#[derive(Clone, Copy)]
pub enum Damage {
    None,
    Truncated(usize),
    Longer,
    Noise,
    Zeros(Which),
    New,
    Older(Which),
    Bit(usize),
    Both,
    Summed(usize, u8),
}

// The bytes of the file before the closings, and after them.
#[derive(Drop)]
pub struct Copies {
    pub before: Vec<u8>,
    pub after: Vec<u8>,
}

// A device with the bytes of a file.
pub fn device_of(heap: Global, bytes: &[u8]) -> Result<MemoryDevice, AllocError> {
    let (first, second) = bytes.split_at(bytes.len().min(HALF));
    let first = Vec::from_slice(heap, first)?;
    let second = Vec::from_slice(heap, second)?;
    Ok(MemoryDevice::of(first, second))
}

// The bytes of a file.
fn bytes_of(heap: Global, device: &MemoryDevice) -> Result<Vec<u8>, AllocError> {
    let mut bytes = Vec::from_slice(heap, device.read(Which::First))?;
    bytes.extend_from_slice(device.read(Which::Second))?;
    Ok(bytes)
}

// The accounts on a new device.
pub fn new_file(heap: Global) -> anyhow::Result<AccountFile<MemoryDevice>> {
    let device = MemoryDevice::filled(heap, HALF, 0)?;
    AccountFile::start(device).map_err(|_| anyhow!("a new file does not start"))
}

// Opens 5 and 7.
pub fn open_both(file: &mut AccountFile<MemoryDevice>) {
    let _ = open_account(file, 5, Key([5; 32]));
    let _ = open_account(file, 7, Key([7; 32]));
}

// Opens 5 and 7 on a new file, and closes them.
pub fn make_copies(heap: Global) -> anyhow::Result<Copies> {
    let mut file = new_file(heap)?;
    open_both(&mut file);
    let before = bytes_of(heap, &file.device)?;
    let _ = close_account(&mut file, 5);
    let _ = close_account(&mut file, 7);
    let after = bytes_of(heap, &file.device)?;
    Ok(Copies { before, after })
}

// Flips one bit.
fn flip(bytes: &mut [u8], at: usize) {
    if let Some(byte) = bytes.get_mut(at) {
        *byte ^= 1;
    }
}

// Bytes without any order.
fn noise(bytes: &mut [u8]) {
    let mut seed = 12345u32;
    for byte in bytes.iter_mut() {
        seed = seed.wrapping_mul(1664525).wrapping_add(1013904223);
        *byte = (seed >> 24) as u8;
    }
}

// Where a half begins and ends.
fn place(which: Which) -> (usize, usize) {
    match which {
        Which::First => (0, HALF),
        Which::Second => (HALF, 2 * HALF),
    }
}

fn zero(bytes: &mut [u8], which: Which) {
    let (start, end) = place(which);
    if let Some(half) = bytes.get_mut(start..end) {
        half.fill(0);
    }
}

// Puts an older copy of a half in its place.
fn restore(bytes: &mut [u8], which: Which, older: &[u8]) {
    let (start, end) = place(which);
    if let (Some(half), Some(old)) = (bytes.get_mut(start..end), older.get(start..end)) {
        half.copy_from_slice(old);
    }
}

// Writes a byte.
fn put(bytes: &mut [u8], at: usize, byte: u8) {
    if let Some(place) = bytes.get_mut(at) {
        *place = byte;
    }
}

// Writes the sum of the second half at its end.
fn put_sum(bytes: &mut [u8]) {
    let Some((front, sum)) = bytes.split_last_chunk_mut::<16>() else {
        return;
    };
    if let Some(half) = front.get(HALF..) {
        sum.copy_from_slice(&sha256(half)[..16]);
    }
}

// The bytes of the file after a damage.
pub fn damaged(heap: Global, damage: Damage, copies: &Copies) -> Result<Vec<u8>, AllocError> {
    let mut bytes = Vec::from_slice(heap, &copies.after)?;
    match damage {
        Damage::None => {}
        Damage::Truncated(len) => bytes.truncate(len),
        Damage::Longer => bytes.push(0)?,
        Damage::Noise => noise(&mut bytes),
        Damage::New => bytes.fill(0),
        Damage::Zeros(which) => zero(&mut bytes, which),
        Damage::Older(which) => restore(&mut bytes, which, &copies.before),
        Damage::Bit(at) => flip(&mut bytes, at),
        Damage::Both => {
            flip(&mut bytes, 100);
            flip(&mut bytes, HALF + 100);
        }
        Damage::Summed(at, byte) => {
            put(&mut bytes, at, byte);
            put_sum(&mut bytes);
        }
    }
    Ok(bytes)
}
