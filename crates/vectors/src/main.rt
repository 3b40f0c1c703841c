// Runs test vectors of SHA-256, HMAC, ChaCha20, digests and locks, a line of standard input each, and says which
// lines do not agree. The last line that it writes is how many agree.
#![tactic(auto)]

use anyhow::{anyhow, ensure};
use cipher::{State, chacha20};
use hash::{Hasher, Hmac, hmac_sha256, sha256};
use hex::FromHexError;
use seal::{Kind, append_lock, digest, inside, open_in_place};
use std::alloc::{AllocError, Global};
use std::io::{BufRead, BufReader};

// Why a vector can't be tried.
#[derive(Debug, Drop)]
enum Untried {
    // A field is not there, or is too short, or no kind has its number.
    NoField,
    NoMemory(AllocError),
}

impl From<AllocError> for Untried {
    fn from(e: AllocError) -> Untried {
        Untried::NoMemory(e)
    }
}

// What one line says: the name of what is tried, and its fields.
// The fields go by place, since each name has its own number of them.
#[derive(Drop)]
struct Vector<'a> {
    name: &'a str,
    fields: Vec<Vec<u8>>,
}

impl Vector<'_> {
    // A field, and no bytes where there is none.
    fn field(&self, i: usize) -> &[u8] {
        self.fields.get(i).map_or(&[], |bytes| bytes.as_slice())
    }

    // The first bytes of a field.
    fn array<const N: usize>(&self, i: usize) -> Result<&[u8; N], Untried> {
        self.field(i).first_chunk().ok_or(Untried::NoField)
    }

    // A field of four bytes as a number, high byte first.
    fn number(&self, i: usize) -> Result<u32, Untried> {
        let bytes = self.field(i).as_array().ok_or(Untried::NoField)?;
        Ok(u32::from_be_bytes(*bytes))
    }

    // A field of one byte as the number of a kind.
    fn kind(&self, i: usize) -> Result<Kind, Untried> {
        let [number]: &[u8; 1] = self.field(i).as_array().ok_or(Untried::NoField)?;
        Kind::try_from(u64::from(*number)).map_err(|_| Untried::NoField)
    }
}

// The bytes of a field in hex, in lower case, or of `-`, which is none; a pair of others is told before half a byte.
fn bytes_of(heap: Global, field: &str) -> anyhow::Result<Vec<u8>> {
    if field == "-" {
        return Ok(Vec::new(heap));
    }
    let pairs = &field.as_bytes()[..field.len() / 2 * 2];
    ensure!(
        pairs
            .iter()
            .all(|b| matches!(*b, b'0'..=b'9' | b'a'..=b'f')),
        "no hex digit"
    );
    hex::decode(heap, field).map_err(|e| match e {
        FromHexError::OddLength => anyhow!("half a byte"),
        FromHexError::OutOfMemory => anyhow::Error::from(AllocError),
        _ => anyhow!("no hex digit"),
    })
}

// The vector on a line: its name, and fields with a space before each.
fn vector_of(heap: Global, line: &str) -> anyhow::Result<Vector<'_>> {
    let mut words = line.split(' ');
    let name = words.next().unwrap_or("");
    let fields = words.map(|word| bytes_of(heap, word)).try_collect(heap)?;
    Ok(Vector { name, fields })
}

// A message, whole and in two parts.
// As for a message under a key; they differ in the type, the key, and where the message is cut.
fn sha256_agrees(v: &Vector<'_>) -> bool {
    let (message, want) = (v.field(0), v.field(1));
    let (front, back) = message.split_at(message.len() / 3);
    let mut hasher = Hasher::new();
    hasher.update(front);
    hasher.update(back);
    want == &sha256(message)[..] && want == &hasher.finish()[..]
}

// The same bytes, many times.
fn repeat_agrees(v: &Vector<'_>) -> Result<bool, Untried> {
    let mut hasher = Hasher::new();
    for _ in 0..v.number(1)? {
        hasher.update(v.field(0));
    }
    Ok(v.field(2) == &hasher.finish()[..])
}

// A message under a key, whole and in two parts.
fn hmac_agrees(v: &Vector<'_>) -> bool {
    let (key, message, want) = (v.field(0), v.field(1), v.field(2));
    let (front, back) = message.split_at(message.len() / 2);
    let mut mac = Hmac::new(key);
    mac.update(front);
    mac.update(back);
    want == &hmac_sha256(key, message)[..] && want == &mac.finish()[..]
}

// The 64 bytes of the key stream at a counter.
fn block_agrees(v: &Vector<'_>) -> Result<bool, Untried> {
    let state = State::new(v.array(0)?, v.array(1)?, v.number(2)?);
    Ok(v.field(3) == &state.block()[..])
}

// Bytes turned, from a counter on.
fn chacha20_agrees(heap: Global, v: &Vector<'_>) -> Result<bool, Untried> {
    let mut bytes = v.field(3).to_vec(heap)?;
    chacha20(v.array(0)?, v.array(1)?, v.number(2)?, bytes.as_mut_slice());
    Ok(v.field(4) == bytes.as_slice())
}

// The digest of a key and a number.
fn digest_agrees(v: &Vector<'_>) -> Result<bool, Untried> {
    Ok(digest(v.array(0)?, v.array(1)?) == u128::from_be_bytes(*v.array(2)?))
}

// Made, and opened: the inside comes out.
fn lock_agrees(heap: Global, v: &Vector<'_>) -> Result<bool, Untried> {
    let (kind, key) = (v.kind(0)?, v.array(1)?);
    let mut word = Vec::new(heap);
    append_lock(kind, key, v.array(2)?, v.field(3), &mut word)?;
    let made = v.field(4) == word.as_slice();
    let opened = open_in_place(kind, key, word.as_mut_slice()).is_ok();
    Ok(made && opened && v.field(3) == inside(word.as_slice()))
}

// Does not open, and stays as it was.
fn shut_agrees(heap: Global, v: &Vector<'_>) -> Result<bool, Untried> {
    let mut word = v.field(2).to_vec(heap)?;
    let opened = open_in_place(v.kind(0)?, v.array(1)?, word.as_mut_slice()).is_ok();
    Ok(!opened && v.field(2) == word.as_slice())
}

// Whether what the vector's name says gives what the vector wants.
fn agrees(heap: Global, v: &Vector<'_>) -> Result<bool, Untried> {
    match v.name {
        "sha256" => Ok(sha256_agrees(v)),
        "repeat" => repeat_agrees(v),
        "hmac" => Ok(hmac_agrees(v)),
        "block" => block_agrees(v),
        "chacha20" => chacha20_agrees(heap, v),
        "digest" => digest_agrees(v),
        "lock" => lock_agrees(heap, v),
        "shut" => shut_agrees(heap, v),
        _ => Ok(false),
    }
}

// Counted by hand, since each line may end the program.
fn main(rt: HostRuntime) -> anyhow::Result<()> {
    let heap = rt.alloc();
    let mut agreeing = 0u64;
    for (n, line) in BufReader::new(heap, rt.stdin())?.lines(heap).enumerate() {
        let text = line?;
        let vector = vector_of(heap, text.as_str())?;
        match agrees(heap, &vector) {
            Ok(true) => agreeing = agreeing.saturating_add(1),
            Ok(false) | Err(Untried::NoField) => println!(rt; "vector {n} does not agree")?,
            Err(Untried::NoMemory(e)) => return Err(e.into()),
        }
    }
    println!(rt; "{agreeing}")?;
    Ok(())
}
