// The accounts file in bytes, what cut writes leave, and a table of damages: each ends in what a half holds, or in fault 13.
#![tactic(auto)]

mod damage;

use accounts::{AccountFile, HALF};
use anyhow::anyhow;
use damage::{Copies, Damage, damaged, device_of, make_copies, new_file, open_both};
use halves::{Device, Which};
use house_rules::{Accounts, Changed, close_account};
use memory_device::{Ends, MemoryDevice};
use parts::{Account, Fault};

// The state of an account.
// This and the one below are no Display: their words are of this table alone.
fn state(file: &AccountFile<MemoryDevice>, number: u16) -> &'static str {
    match file.account(number) {
        Account::Absent => "absent",
        Account::Open(_) => "open",
        Account::Closed(_) => "closed",
    }
}

// What a change is answered by.
fn answer(changed: Result<Changed, Fault>) -> &'static str {
    match changed {
        Ok(Changed::Done) => "done",
        Ok(Changed::Same) => "same",
        Err(_) => "refused",
    }
}

// What a start gives.
// Here, in `show`, `cut` and `unmade` the first two say where it is printed, and the name of its line.
fn start(rt: &HostRuntime, name: &str, device: MemoryDevice) -> anyhow::Result<()> {
    match AccountFile::start(device) {
        Ok(file) => {
            let five = state(&file, 5);
            let seven = state(&file, 7);
            println!(rt; "{name}: 5 {five}, 7 {seven}")?;
        }
        Err(_) => println!(rt; "{name}: fault 13")?,
    }
    Ok(())
}

// The turn and the sum of a half.
fn show(rt: &HostRuntime, name: &str, half: &[u8]) -> anyhow::Result<()> {
    print!(rt; "{name} ")?;
    for byte in half.iter().take(8) {
        print!(rt; "{byte:02x}")?;
    }
    print!(rt; " ")?;
    for byte in half.iter().skip(HALF - 16) {
        print!(rt; "{byte:02x}")?;
    }
    println!(rt; "")?;
    Ok(())
}

// The halves of a new file, and after two openings.
fn halves(rt: &HostRuntime) -> anyhow::Result<()> {
    let mut file = new_file(rt.alloc())?;
    show(rt, "new, first half", file.device.read(Which::First))?;
    show(rt, "new, second half", file.device.read(Which::Second))?;
    open_both(&mut file);
    show(
        rt,
        "5 and 7 opened, first half",
        file.device.read(Which::First),
    )?;
    show(
        rt,
        "5 and 7 opened, second half",
        file.device.read(Which::Second),
    )
}

// What is held after a closing whose write ended so, and what a start finds then.
fn cut(rt: &HostRuntime, name: &str, ends: Ends, copies: &Copies) -> anyhow::Result<()> {
    let device = device_of(rt.alloc(), &copies.before)?;
    let mut file = AccountFile::start(device).map_err(|_| anyhow!("the file does not start"))?;
    file.device.set_ends(ends);
    let told = answer(close_account(&mut file, 5));
    let five = state(&file, 5);
    println!(rt; "{name}: {told}, 5 {five}")?;
    let mut device = file.device;
    device.set_ends(Ends::Done);
    start(rt, "then", device)
}

// A new file whose writes end so.
fn unmade(rt: &HostRuntime, name: &str, ends: Ends) -> anyhow::Result<()> {
    let mut device = MemoryDevice::filled(rt.alloc(), HALF, 0)?;
    device.set_ends(ends);
    start(rt, name, device)
}

// The lines of a table: what a start gives after each damage.
fn table(rt: &HostRuntime, copies: &Copies, lines: &[(&str, Damage)]) -> anyhow::Result<()> {
    for (name, damage) in lines {
        let bytes = damaged(rt.alloc(), *damage, copies)?;
        start(rt, name, device_of(rt.alloc(), &bytes)?)?;
    }
    Ok(())
}

// What happens to the size, or to all of a half.
fn large(rt: &HostRuntime, copies: &Copies) -> anyhow::Result<()> {
    table(
        rt,
        copies,
        &[
            ("none", Damage::None),
            ("truncated to 0 bytes", Damage::Truncated(0)),
            ("truncated to 7 bytes", Damage::Truncated(7)),
            ("truncated to 16 bytes", Damage::Truncated(16)),
            ("truncated to a half", Damage::Truncated(HALF)),
            ("last 5 bytes cut", Damage::Truncated(2 * HALF - 5)),
            ("a byte more", Damage::Longer),
            ("the file gone", Damage::Truncated(0)),
            ("noise", Damage::Noise),
            ("zeros in the newer half", Damage::Zeros(Which::Second)),
            ("zeros in the older half", Damage::Zeros(Which::First)),
            ("zeros in both halves, which is a new file", Damage::New),
            (
                "an older copy of the older half",
                Damage::Older(Which::First),
            ),
            (
                "an older copy of the newer half",
                Damage::Older(Which::Second),
            ),
        ],
    )
}

// What happens to one byte.
fn small(rt: &HostRuntime, copies: &Copies) -> anyhow::Result<()> {
    table(
        rt,
        copies,
        &[
            ("a bit in the newer turn", Damage::Bit(HALF + 7)),
            ("a bit in a newer state", Damage::Bit(HALF + 8 + 33 * 7)),
            ("a bit in a newer key", Damage::Bit(HALF + 9 + 33 * 7)),
            ("a bit in the newer sum", Damage::Bit(2 * HALF - 1)),
            ("a bit in the older turn", Damage::Bit(7)),
            ("a bit in an older state", Damage::Bit(8 + 33 * 7)),
            ("a bit in an older key", Damage::Bit(9 + 33 * 7)),
            ("a bit in the older sum", Damage::Bit(HALF - 1)),
            ("a bit in both", Damage::Both),
            (
                "a newer state of 3, with its sum",
                Damage::Summed(HALF + 8 + 33 * 7, 3),
            ),
            (
                "a newer state of 3 of nobody, with its sum",
                Damage::Summed(HALF + 8, 3),
            ),
            (
                "a key of an absent one, with its sum",
                Damage::Summed(HALF + 9 + 33 * 9, 3),
            ),
        ],
    )
}

fn main(rt: HostRuntime) -> anyhow::Result<()> {
    account_laws::codec_laws();
    account_laws::fall_laws();
    halves(&rt)?;
    let copies = make_copies(rt.alloc())?;
    cut(&rt, "written", Ends::Done, &copies)?;
    cut(&rt, "not written, the old left", Ends::Old, &copies)?;
    cut(&rt, "not written, the new left", Ends::New, &copies)?;
    cut(&rt, "not written, junk left", Ends::Junk, &copies)?;
    unmade(&rt, "new, nothing written", Ends::Old)?;
    unmade(&rt, "new, junk written", Ends::Junk)?;
    large(&rt, &copies)?;
    small(&rt, &copies)
}
