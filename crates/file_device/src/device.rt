// A file, and what stands in it: read once at the start, and kept in memory from then on.
ghost use Rattle.memory_device.specs.Seen.{seen};

use halves::{Device, Which};
use memory_device::MemoryDevice;
use parts::NotWritten;
use std::alloc::AllocError;
use std::fs::{File, OpenOptions};
use std::io;
use std::io::{ErrorKind, Read, Seek, SeekFrom, Write};

// The byte that fills a block of junk.
const JUNK: u8 = 255;

// The file, if it can be written, and its two blocks.
#[derive(Drop)]
pub struct FileDevice {
    file: Option<File>,
    blocks: MemoryDevice,
}

// Opens a file to be read and written; only to be read, if it can't be written.
// This and the one below are no methods: a file and its blocks become a device only when all was read.
fn open_file(rt: &HostRuntime, path: &str) -> io::Result<File> {
    OpenOptions::new()
        .read(true)
        .write(true)
        .open(rt, path)
        .or_else(|_| File::open(rt, path))
}

// Reads both blocks of a file, if it has just their length.
fn read_blocks(
    rt: &HostRuntime,
    path: &str,
    first: &mut [u8],
    second: &mut [u8],
) -> io::Result<File> {
    let mut file = open_file(rt, path)?;
    let len = file.metadata()?.len();
    if len.checked_sub(first.len() as u64) != Some(second.len() as u64) {
        return Err(ErrorKind::InvalidData.into());
    }
    file.read_exact(first)?;
    file.read_exact(second)?;
    Ok(file)
}

// Makes a file of two blocks, in the place of whatever was there.
fn make_file(rt: &HostRuntime, path: &str, blocks: &MemoryDevice) -> io::Result<File> {
    let mut file = File::create(rt, path)?;
    file.write_all(blocks.read(Which::First))?;
    file.write_all(blocks.read(Which::Second))?;
    file.sync_all()?;
    Ok(file)
}

// Writes bytes at a place of a file, so that they are kept.
fn write_at(file: &mut File, at: u64, bytes: &[u8]) -> io::Result<()> {
    file.seek(SeekFrom::Start(at))?;
    file.write_all(bytes)?;
    file.sync_data()
}

impl FileDevice {
    // A file of two blocks of so many bytes; none, if it is missing, has another size or can't be read.
    pub fn open(
        rt: &HostRuntime,
        path: &str,
        size: usize,
    ) -> Result<Option<FileDevice>, AllocError> {
        let mut first = vec![in rt.alloc(); JUNK; size]?;
        let mut second = vec![in rt.alloc(); JUNK; size]?;
        let Ok(file) = read_blocks(rt, path, first.as_mut_slice(), second.as_mut_slice()) else {
            return Ok(None);
        };
        Ok(Some(FileDevice {
            file: Some(file),
            blocks: MemoryDevice::of(first, second),
        }))
    }

    // A file of two blocks of so many bytes; one that is missing, has another size or can't be read is made anew, of bytes 255, which are junk. If it can't be made, nothing can be written.
    pub fn open_or_make(
        rt: &HostRuntime,
        path: &str,
        size: usize,
    ) -> Result<FileDevice, AllocError> {
        if let Some(device) = FileDevice::open(rt, path, size)? {
            return Ok(device);
        }
        let blocks = MemoryDevice::filled(rt.alloc(), size, JUNK)?;
        let file = make_file(rt, path, &blocks).ok();
        Ok(FileDevice { file, blocks })
    }
}

impl Device for FileDevice {
    ghost blocks = { λ f. seen f.blocks };

    fn read(&self, which: Which) -> &[u8] {
        self.blocks.read(which)
    }

    fn write(&mut self, which: Which, bytes: &[u8]) -> Result<(), NotWritten> {
        if bytes.len() > self.blocks.read(which).len() {
            return Err(NotWritten);
        }
        let at = match which {
            Which::First => 0,
            Which::Second => self.blocks.read(Which::First).len() as u64,
        };
        let file = self.file.as_mut().ok_or(NotWritten)?;
        write_at(file, at, bytes).map_err(|_| NotWritten)?;
        self.blocks.write(which, bytes)
    }
}
