// The program `town`: plays the scripts in the files that its arguments name, each in a town of its own, or the one on standard input.
#![tactic(auto)]

ghost use Rattle.commands.specs.Grammar.{read_of};
ghost use Rattle.commands.specs.Said as say;
ghost use Rattle.std.specs.Prelude.{◌≡◌, Some, false};

use anyhow::anyhow;
use commands::line::Line;
use commands::lines::{Lines, read};
use play::{Town, found};
use printed::Text;
use std::io::{Read, Write};
use std::process::ExitCode;
use std::{env, fs};

// Shows what was printed so far.
fn show(rt: &HostRuntime, out: &Text) -> anyhow::Result<()> {
    let mut stdout = rt.stdout();
    stdout.write_all(out.as_slice())?;
    stdout.flush()?;
    Ok(())
}

// Plays the first line that says something, by which a town begins, or it is fault 13.
fn begun(rt: &HostRuntime, line: &[u8]) -> anyhow::Result<Town> {
    let mut out = Text::new(rt.alloc());
    let town = found(rt.alloc(), &mut out, line)?;
    if town.is_none() {
        out.plain(b"fault 13\n")?;
    }
    show(rt, &out)?;
    town.ok_or_else(|| anyhow!("the first line has to be: town TICK LIFE LAG SEED"))
}

// Does a line say something? What begins as one that says nothing is all that is read for it.
fn says(line: &[u8]) -> bool
    ensures { result ≡ false → read_of line.now ≡ Some say.Blank }
{
    !matches!(line, [] | [b'#', ..]) || !matches!(read(line), Some(Line::Blank))
}

// Plays a script, line by line; the lines that a line leads to are written when it is done.
fn play_script(rt: &HostRuntime, text: &[u8]) -> anyhow::Result<()> {
    let mut lines = Lines::new(text);
    let Some(first) = lines.find(|line| says(line)) else {
        return Ok(());
    };
    let mut town = begun(rt, first)?;
    for line in lines {
        if !says(line) {
            continue;
        }
        let mut out = Text::new(rt.alloc());
        town.hear(&mut out, line)?;
        show(rt, &out)?;
    }
    let mut out = Text::new(rt.alloc());
    town.total(&mut out)?;
    show(rt, &out)
}

// Plays the script in a file.
fn play_file(rt: &HostRuntime, path: &str) -> anyhow::Result<()> {
    let text = fs::read(rt, path)?;
    play_script(rt, text.as_slice())
}

// Plays the script on standard input.
fn play_stdin(rt: &HostRuntime) -> anyhow::Result<()> {
    let mut text = Vec::new(rt.alloc());
    let _count = rt.stdin().read_to_end(&mut text)?;
    play_script(rt, text.as_slice())
}

fn run(rt: &HostRuntime) -> anyhow::Result<()> {
    let mut args = env::args(rt)?;
    let _program = args.next();
    let Some(first) = args.next() else {
        return play_stdin(rt);
    };
    play_file(rt, first.as_str())?;
    for path in args {
        play_file(rt, path.as_str())?;
    }
    Ok(())
}

// As main of the other town: an error is told on standard error, after the name of the program.
fn main(rt: HostRuntime) -> ExitCode {
    match run(&rt) {
        Ok(()) => ExitCode::SUCCESS,
        Err(e) => {
            let _told = eprintln!(rt; "town: {e}");
            ExitCode::FAILURE
        }
    }
}
