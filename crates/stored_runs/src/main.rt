// Prints what layrun prints on stored plan texts and inputs: nested resources and events, mixed line ends, an empty
// input and a refused plan; and the blocking sheets of the first plan and of the refused one.
#![tactic(auto)]

use sheet::pages::blocksheet;
use std::io::Write;
use std::{fs, io};
use transcripts::outputs::layrun;

// Prints a name, and below it an output.
fn show(rt: &HostRuntime, name: &str, out: &[u8]) -> io::Result<()> {
    println!(rt; "{name}")?;
    rt.stdout().write_all(out)
}

fn main(rt: HostRuntime) -> io::Result<()> {
    for (name, plan, calls) in [
        ("nested resources and events", "nested.oil", "nested.calls"),
        (
            "mixed line ends, none after the last record",
            "mixed.oil",
            "mixed.calls",
        ),
        ("no record", "empty.oil", "empty.calls"),
        ("a refused plan", "refused.oil", "refused.calls"),
    ] {
        let text = fs::read(&rt, plan)?;
        let input = fs::read(&rt, calls)?;
        let out = layrun(rt.alloc(), text.as_slice(), input.as_slice())?;
        show(&rt, name, out.as_slice())?;
    }
    for (name, plan) in [
        ("the sheet of nested resources", "nested.oil"),
        ("the sheet of a refused plan", "refused.oil"),
    ] {
        let text = fs::read(&rt, plan)?;
        let out = blocksheet(rt.alloc(), text.as_slice())?;
        show(&rt, name, out.as_slice())?;
    }
    Ok(())
}
