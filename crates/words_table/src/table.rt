// One line of the table: a verb, and bytes in hex, where `aa*32` stands for 32 bytes 0xaa.
ghost use Rattle.std.specs.Prelude.{◌≤◌};

use anyhow::{anyhow, ensure};
use contents::{Asking, Inside, read_asking, write_asking};
use hex::FromHexError;
use parts::{Fault, Letter, Login, Number, Receipt, Ticket};
use std::alloc::{AllocError, Global};
use wire::{Unwritten, Word, read_word, write_word};

// Why a line is not answered by what its bytes are read as.
#[derive(Drop)]
enum Untold {
    Fault(Fault),
    NoMemory(AllocError),
    NoVerb,
}

impl From<Fault> for Untold {
    fn from(fault: Fault) -> Untold {
        Untold::Fault(fault)
    }
}

impl From<AllocError> for Untold {
    fn from(e: AllocError) -> Untold {
        Untold::NoMemory(e)
    }
}

// The bytes of one group of hex digits, in lower case; a pair of others is told before an odd digit.
fn group_of(heap: Global, digits: &str) -> anyhow::Result<Vec<u8>> {
    let pairs = &digits.as_bytes()[..digits.len() / 2 * 2];
    ensure!(
        pairs
            .iter()
            .all(|b| matches!(*b, b'0'..=b'9' | b'a'..=b'f')),
        "no hex digit"
    );
    hex::decode(heap, digits).map_err(|e| match e {
        FromHexError::OddLength => anyhow!("an odd digit"),
        FromHexError::OutOfMemory => anyhow::Error::from(AllocError),
        _ => anyhow!("no hex digit"),
    })
}

// Adds the bytes of one group of hex digits, `times` times. They are read once, and not at all where none are wanted.
fn push_group(out: &mut Vec<u8>, heap: Global, digits: &str, times: u32) -> anyhow::Result<()> {
    if times == 0 {
        return Ok(());
    }
    let group = group_of(heap, digits)?;
    if group.is_empty() {
        return Ok(());
    }
    for _ in 0..times {
        out.extend_from_slice(&group)?;
    }
    Ok(())
}

// The bytes of groups of hex digits, each as often as it says.
fn bytes_of(heap: Global, text: &str) -> anyhow::Result<Vec<u8>> {
    let mut out = Vec::new(heap);
    for group in text.split(' ') {
        match group.split_once('*') {
            Some((digits, times)) => push_group(&mut out, heap, digits, times.parse::<u32>()?)?,
            None => push_group(&mut out, heap, group, 1)?,
        }
    }
    Ok(out)
}

// Whether bytes that were read and written again are the same.
fn compared(again: &[u8], bytes: &[u8]) -> &'static str {
    if again == bytes { "same" } else { "differs" }
}

// Whether what was read writes the same bytes again.
fn inside_again<T: Inside>(value: &T, bytes: &[u8]) -> &'static str
    requires { T.MOST ≤ 59 }
{
    let mut room = [0u8; 59];
    let out = &mut room[0..value.len()];
    value.write(out);
    compared(out, bytes)
}

fn word_again(heap: Global, word: Word<'_>, bytes: &[u8]) -> &'static str {
    match write_word(heap, word) {
        Ok(again) => compared(again.as_slice(), bytes),
        Err(_) => "unwritten",
    }
}

// What can be read, as its line names it.
trait Told {
    // Its name, and the fields that the line shows.
    fn told(&self, heap: Global) -> Result<String, AllocError>;
}

impl Told for Word<'_> {
    fn told(&self, heap: Global) -> Result<String, AllocError> {
        match self {
            Word::Login { reader, lock } => format!(in heap; "login {reader} {}", lock.len()),
            Word::TicketAndLetter { ticket, letter } => {
                format!(in heap; "ticket-and-letter {} {}", ticket.len(), letter.len())
            }
            Word::Asking { ticket, asking } => {
                format!(in heap; "asking {} {}", ticket.len(), asking.len())
            }
            Word::Receipt { lock } => format!(in heap; "receipt {}", lock.len()),
            Word::Refusal(class) => format!(in heap; "refusal {}", class.number()),
        }
    }
}

impl Told for Ticket {
    fn told(&self, heap: Global) -> Result<String, AllocError> {
        format!(in heap; "ticket {} {} {}", self.service, self.reader, self.until)
    }
}

impl Told for Letter {
    fn told(&self, heap: Global) -> Result<String, AllocError> {
        format!(in heap; "letter {} {}", self.service, self.until)
    }
}

impl Told for Asking<'_> {
    fn told(&self, heap: Global) -> Result<String, AllocError> {
        format!(in heap; "asking {} {} {}", self.service, self.what.len(), self.tick)
    }
}

impl Told for Login {
    fn told(&self, heap: Global) -> Result<String, AllocError> {
        format!(in heap; "login {}", self.tick)
    }
}

impl Told for Receipt {
    fn told(&self, heap: Global) -> Result<String, AllocError> {
        String::from_str(heap, "receipt")
    }
}

// The line of what was read: what it is, and whether it writes the same bytes again.
fn line_of(heap: Global, read: &impl Told, again: &str) -> Result<String, Untold> {
    let told = read.told(heap)?;
    Ok(format!(in heap; "{told} {again}")?)
}

fn word_line(heap: Global, bytes: &[u8]) -> Result<String, Untold> {
    let word = read_word(bytes)?;
    line_of(heap, &word, word_again(heap, word, bytes))
}

fn inside_line<T: Inside + Told + Drop>(heap: Global, bytes: &[u8]) -> Result<String, Untold>
    requires { T.MOST ≤ 59 }
{
    let value = T::read(bytes)?;
    line_of(heap, &value, inside_again(&value, bytes))
}

// What was written is cut by the count that is told.
fn asking_line(heap: Global, bytes: &[u8]) -> Result<String, Untold> {
    let asking = read_asking(bytes)?;
    let mut out = [0u8; 1053];
    let again = match write_asking(asking, &mut out) {
        Some(n) => compared(&out[0..n], bytes),
        None => "unwritten",
    };
    line_of(heap, &asking, again)
}

// Writes a receipt whose lock is these bytes.
fn pack_line(heap: Global, lock: &[u8]) -> Result<String, AllocError> {
    match write_word(heap, Word::Receipt { lock }) {
        Ok(out) => {
            let n = out.len();
            format!(in heap; "written {n}")
        }
        Err(Unwritten::LockLength) => String::from_str(heap, "lock length"),
        Err(Unwritten::NoMemory) => Err(AllocError),
    }
}

// Writes an asking for these bytes into a memory that has room for 30 of them.
// The counts are printed as they are told, 0 where nothing was written.
fn fill_line(heap: Global, what: &[u8]) -> Result<String, AllocError> {
    let asking = Asking {
        service: 7,
        number: Number([1; 16]),
        what,
        tick: 200,
    };
    let mut wide = [0u8; 2048];
    let mut narrow = [9u8; 59];
    let full = write_asking(asking, &mut wide).unwrap_or(0);
    let short = write_asking(asking, &mut narrow).unwrap_or(0);
    format!(in heap; "written {full} {short}")
}

// What the bytes of a line are read or written as, by its verb.
fn by_verb(heap: Global, verb: &str, bytes: &[u8]) -> Result<String, Untold> {
    match verb {
        "word" => word_line(heap, bytes),
        "ticket" => inside_line::<Ticket>(heap, bytes),
        "letter" => inside_line::<Letter>(heap, bytes),
        "asking" => asking_line(heap, bytes),
        "login" => inside_line::<Login>(heap, bytes),
        "receipt" => inside_line::<Receipt>(heap, bytes),
        "pack" => Ok(pack_line(heap, bytes)?),
        "fill" => Ok(fill_line(heap, bytes)?),
        _ => Err(Untold::NoVerb),
    }
}

// The answer to a line of the table: what it is read as, or the fault.
pub fn answer(heap: Global, line: &str) -> anyhow::Result<String> {
    let (verb, rest) = line.split_once(' ').unwrap_or((line, ""));
    let bytes = bytes_of(heap, rest)?;
    match by_verb(heap, verb, &bytes) {
        Ok(out) => Ok(out),
        Err(Untold::Fault(fault)) => Ok(format!(in heap; "fault {}", fault.number())?),
        Err(Untold::NoMemory(e)) => Err(anyhow::Error::from(e)),
        Err(Untold::NoVerb) => Err(anyhow!("no such verb")),
    }
}
