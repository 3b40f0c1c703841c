// The program `town`: plays the script in the file that its argument names, or on standard input.
#![tactic(auto)]

use anyhow::bail;
use commands::lines::Lines;
use script::town::{Answer, Town};
use std::io::{Read, Write};
use std::process::ExitCode;
use std::{env, fs};

// The script, whole.
fn script_text(rt: &HostRuntime) -> anyhow::Result<Vec<u8>> {
    let mut args = env::args(rt)?;
    let _program = args.next();
    let path = args.next();
    if args.next().is_some() {
        bail!("one script at a time, or none for standard input");
    }
    if let Some(path) = path {
        return Ok(fs::read(rt, path.as_str())?);
    }
    let mut text = Vec::new(rt.alloc());
    let _count = rt.stdin().read_to_end(&mut text)?;
    Ok(text)
}

// Prints a line for each line that says something. A first line that is not good ends the play.
fn play(rt: &HostRuntime, text: &[u8]) -> anyhow::Result<()> {
    let mut town = Town::new(rt.alloc())?;
    for line in Lines::new(text) {
        let answer = town.hear(line);
        if let Answer::Silent = answer {
            continue;
        }
        println!(rt; "{answer}")?;
        rt.stdout().flush()?;
        if !town.is_open() {
            bail!("the first line has to be: town TICK LIFE LAG SEED");
        }
    }
    Ok(())
}

fn run(rt: &HostRuntime) -> anyhow::Result<()> {
    let text = script_text(rt)?;
    play(rt, text.as_slice())
}

// As main of the other town: an error is told on standard error, after the name of the program.
fn main(rt: HostRuntime) -> ExitCode {
    match run(&rt) {
        Ok(()) => ExitCode::SUCCESS,
        Err(e) => {
            let _told = eprintln!(rt; "town: {e}");
            ExitCode::FAILURE
        }
    }
}
