// The program `crowd`: plays a town by lines that are each said a number of times, and prints only the faults and the total.
// So a memory can be filled and drawn bytes used up by a script of some lines.
#![tactic(auto)]

use anyhow::anyhow;
use commands::lines::Lines;
use play::{Town, found};
use printed::Text;
use std::io::{Read, Write};
use words::{decimal, next};

// Is it a line that is shown?
fn is_shown(line: &[u8]) -> bool {
    line.starts_with(b"fault") || line.starts_with(b"total")
}

// Shows the faults and the total of what was printed.
fn show(rt: &HostRuntime, out: &Text) -> anyhow::Result<()> {
    let mut stdout = rt.stdout();
    for line in Lines::new(out.as_slice()) {
        if is_shown(line) {
            stdout.write_all(line)?;
            stdout.write_all(b"\n")?;
        }
    }
    Ok(())
}

// The town of the first line.
fn begun(rt: &HostRuntime, line: &[u8]) -> anyhow::Result<Town> {
    let mut out = Text::new(rt.alloc());
    let town = found(rt.alloc(), &mut out, line)?;
    town.ok_or_else(|| anyhow!("the first line has to be: town TICK LIFE LAG SEED"))
}

// Plays COUNT LINE: that line, so many times.
fn often(rt: &HostRuntime, town: &mut Town, text: &[u8]) -> anyhow::Result<()> {
    let (count, line) = next(text, decimal).ok_or_else(|| anyhow!("a line is: COUNT LINE"))?;
    for _ in 0..count {
        let mut out = Text::new(rt.alloc());
        town.hear(&mut out, line)?;
        show(rt, &out)?;
    }
    Ok(())
}

fn run(rt: &HostRuntime) -> anyhow::Result<()> {
    let mut text = Vec::new(rt.alloc());
    let _count = rt.stdin().read_to_end(&mut text)?;
    let mut lines = Lines::new(&text);
    let mut town = begun(rt, lines.next().unwrap_or(b""))?;
    for line in lines {
        often(rt, &mut town, line)?;
    }
    let mut out = Text::new(rt.alloc());
    town.total(&mut out)?;
    show(rt, &out)
}

fn main(rt: HostRuntime) -> anyhow::Result<()> {
    run(&rt)
}
