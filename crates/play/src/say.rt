// The lines that a town prints.
ghost use Rattle.play.specs.Say.{done_line, fault_line, inside_line, key_line, line_fault, numbers_line, side_line, start_line, then_hex, then_if, then_number, then_numbers, then_side, then_stolen, then_verdict, word_line};
ghost use Rattle.printed.specs.Printed.{shown};
ghost use Rattle.std.specs.Prelude.{◌≡◌, Some, OnOk};

use commands::line::Side;
use judge_rules::{Done, Verdict};
use parts::{Fault, Key};
use printed::Text;
use std::alloc::AllocError;

// A space and a number.
fn then_number(out: &mut Text, n: u64) -> Result<(), AllocError>
    ensures { OnOk result (shown out.new ≡ then_number (shown out.old) n) }
{
    out.plain(b" ")?;
    out.number(n)
}

// A space and bytes in hex.
fn then_hex(out: &mut Text, bytes: &[u8]) -> Result<(), AllocError>
    ensures { OnOk result (shown out.new ≡ then_hex (shown out.old) bytes.now) }
{
    out.plain(b" ")?;
    out.hex(bytes)
}

// A space and a side's name; - stands for the outsiders.
fn then_side(out: &mut Text, side: Option<Side>) -> Result<(), AllocError>
    ensures { OnOk result (shown out.new ≡ then_side (shown out.old) side) }
{
    match side {
        None => out.plain(b" -"),
        Some(Side::House) => out.plain(b" house"),
        Some(Side::Service(n)) => {
            out.plain(b" s")?;
            out.number(u64::from(n))
        }
        Some(Side::Reader(n)) => {
            out.plain(b" r")?;
            out.number(u64::from(n))
        }
    }
}

// Numbers, each after a space.
fn then_numbers(out: &mut Text, ns: &[u64]) -> Result<(), AllocError>
    ensures { OnOk result (shown out.new ≡ then_numbers (shown out.old) ns.now) }
{
    for n in ns {
        then_number(out, *n)?;
    }
    Ok(())
}

// A line that is one word and numbers.
pub(crate) fn numbers(out: &mut Text, word: &[u8], ns: &[u64]) -> Result<(), AllocError>
    ensures { OnOk result (shown out.new ≡ numbers_line (shown out.old) word.now ns.now) }
{
    out.plain(word)?;
    then_numbers(out, ns)?;
    out.plain(b"\n")
}

// A line of a side and numbers.
pub(crate) fn at_side(out: &mut Text, word: &[u8], side: Side, ns: &[u64]) -> Result<(), AllocError>
    ensures { OnOk result (shown out.new ≡ side_line (shown out.old) word.now side ns.now) }
{
    out.plain(word)?;
    then_side(out, Some(side))?;
    then_numbers(out, ns)?;
    out.plain(b"\n")
}

// A side's fault.
pub(crate) fn fault(out: &mut Text, side: Side, fault: Fault) -> Result<(), AllocError>
    ensures { OnOk result (shown out.new ≡ fault_line (shown out.old) side fault) }
{
    at_side(out, b"fault", side, &[u64::from(fault.number())])
}

// A fault of the script's own line.
pub(crate) fn line_fault(out: &mut Text) -> Result<(), AllocError>
    ensures { OnOk result (shown out.new ≡ line_fault (shown out.old)) }
{
    out.plain(b"fault 13\n")
}

// A side that started again.
pub(crate) fn started(out: &mut Text, side: Side, waits: bool) -> Result<(), AllocError>
    ensures { OnOk result (shown out.new ≡ start_line (shown out.old) side waits) }
{
    out.plain(b"start")?;
    then_side(out, Some(side))?;
    if waits {
        out.plain(b" waits\n")
    } else {
        out.plain(b" ready\n")
    }
}

// A word, and its number.
pub(crate) fn word(
    out: &mut Text,
    number: u64,
    from: Option<Side>,
    to: Option<Side>,
    bytes: &[u8],
) -> Result<(), AllocError>
    ensures { OnOk result (shown out.new ≡ word_line (shown out.old) number from to bytes.now) }
{
    out.plain(b"w")?;
    out.number(number)?;
    then_side(out, from)?;
    then_side(out, to)?;
    then_hex(out, bytes)?;
    out.plain(b"\n")
}

// A stolen key.
pub(crate) fn key(out: &mut Text, number: u64, key: &Key) -> Result<(), AllocError>
    ensures { OnOk result (shown out.new ≡ key_line (shown out.old) number key.now) }
{
    out.plain(b"key")?;
    then_number(out, number)?;
    then_hex(out, &key.0)?;
    out.plain(b"\n")
}

// What is inside a lock.
pub(crate) fn inside(out: &mut Text, bytes: &[u8]) -> Result<(), AllocError>
    ensures { OnOk result (shown out.new ≡ inside_line (shown out.old) bytes.now) }
{
    out.plain(b"inside")?;
    then_hex(out, bytes)?;
    out.plain(b"\n")
}

// A space and a number, if it is to be told.
fn then_if(out: &mut Text, is_told: bool, n: u64) -> Result<(), AllocError>
    ensures { OnOk result (shown out.new ≡ then_if is_told (shown out.old) n) }
{
    if !is_told {
        return Ok(());
    }
    then_number(out, n)
}

// Whose keys had been stolen.
fn then_stolen(
    out: &mut Text,
    done: &Done,
    reader: bool,
    service: bool,
    house: bool,
) -> Result<(), AllocError>
    ensures { OnOk result (shown out.new ≡ then_stolen (shown out.old) done.now reader service house) }
{
    out.plain(b" stolen")?;
    then_if(out, reader, u64::from(done.reader))?;
    then_if(out, service, u64::from(done.service))?;
    then_if(out, house, 0)
}

// What the judge said of a deed.
fn then_verdict(out: &mut Text, done: &Done, verdict: Verdict) -> Result<(), AllocError>
    ensures { OnOk result (shown out.new ≡ then_verdict (shown out.old) done.now verdict) }
{
    match verdict {
        Verdict::Asked { line, at } => {
            out.plain(b" asked")?;
            then_number(out, line)?;
            then_number(out, at)
        }
        Verdict::Stolen {
            reader,
            service,
            house,
        } => then_stolen(out, done, reader, service, house),
        Verdict::NotAsked => out.plain(b" NOT ASKED"),
    }
}

// A deed, and what the judge said of it.
pub(crate) fn done(out: &mut Text, done: &Done, verdict: Verdict) -> Result<(), AllocError>
    ensures { OnOk result (shown out.new ≡ done_line (shown out.old) done.now verdict) }
{
    out.plain(b"done")?;
    then_number(out, u64::from(done.service))?;
    then_number(out, u64::from(done.reader))?;
    then_hex(out, done.what.words())?;
    then_number(out, done.at)?;
    then_verdict(out, done, verdict)?;
    out.plain(b"\n")
}
