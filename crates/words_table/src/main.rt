// Reads a table of words and insides, whole and damaged, and prints what each is read as, or its fault.
#![tactic(auto)]

mod table;

use table::answer;

fn run(rt: &HostRuntime) -> anyhow::Result<()> {
    codec::inside_laws();
    codec::word_laws();
    for line in rt.lines(rt.alloc()) {
        let line = line?;
        let text = line.as_str();
        if text.is_empty() || text.starts_with('#') {
            continue;
        }
        let out = answer(rt.alloc(), text)?;
        println!(rt; "{out}")?;
    }
    Ok(())
}

fn main(rt: HostRuntime) -> anyhow::Result<()> {
    run(&rt)
}
