// Reads lines of a town's script, whole and damaged, and prints what each says, or 13 where it can't be read.
#![tactic(auto)]

mod shown;

use commands::lines::Lines;
use shown::answer;
use std::io::Read;

// Prints what each line of a text says.
fn print_all(rt: &HostRuntime, text: &[u8]) -> anyhow::Result<()> {
    for line in Lines::new(text) {
        let out = answer(rt.alloc(), line)?;
        println!(rt; "{out}")?;
    }
    Ok(())
}

// A comment of 1,048,576 bytes, and one of a byte more.
fn print_long(rt: &HostRuntime) -> anyhow::Result<()> {
    let mut line = vec![in rt.alloc(); b'#'; 1_048_576]?;
    let out = answer(rt.alloc(), line.as_slice())?;
    println!(rt; "{out}")?;
    line.push(b'#')?;
    let out = answer(rt.alloc(), line.as_slice())?;
    println!(rt; "{out}")?;
    Ok(())
}

fn run(rt: &HostRuntime) -> anyhow::Result<()> {
    commands::laws::lines_are_exact();
    words::laws::bytes_are_exact();
    let mut text = Vec::new(rt.alloc());
    let _count = rt.stdin().read_to_end(&mut text)?;
    print_all(rt, text.as_slice())?;
    print_long(rt)
}

fn main(rt: HostRuntime) -> anyhow::Result<()> {
    run(&rt)
}
