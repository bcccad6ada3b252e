// Prints the blocking sheet of the plan of plan.oil: its blocking table, with the run that shows each entry.
#![tactic(auto)]

use sheet::pages::blocksheet;
use std::io::Write;
use std::process::ExitCode;
use std::{fs, io};
use transcripts::programs::{exit_code, explanation, text_of};

// Reads, works and writes. Nothing is written before all of it is there. A refused plan is explained on standard error.
fn run(rt: &HostRuntime) -> io::Result<()> {
    let text = text_of(rt.alloc(), fs::read(rt, "plan.oil"))?;
    let out = blocksheet(rt.alloc(), text.as_slice())?;
    rt.stdout().write_all(out.as_slice())?;
    if let Some(line) = explanation(rt.alloc(), text.as_slice())? {
        eprintln!(rt; "{line}")?;
    }
    Ok(())
}

fn main(rt: HostRuntime) -> ExitCode {
    exit_code(&rt, "blocksheet", run(&rt))
}
