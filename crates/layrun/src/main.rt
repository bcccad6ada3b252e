// Makes the calls of standard input on a kernel with the plan of plan.oil, and prints a line for each.
#![tactic(auto)]

use std::io::{ErrorKind, Read, Write};
use std::process::ExitCode;
use std::{fs, io};
use transcripts::input::Input;
use transcripts::outputs::layrun;
use transcripts::programs::{exit_code, explanation, text_of};

// Standard input, to its end or to the last record that counts. A loop has to have an end, hence the count, which no
// input reaches.
fn read_input(rt: &HostRuntime) -> io::Result<Input> {
    let mut stdin = rt.stdin();
    let mut input = Input::new(rt.alloc());
    let mut part = [0; 65536];
    for _ in 0..u64::MAX {
        if input.is_enough() {
            break;
        }
        match stdin.read(&mut part) {
            Ok(0) => break,
            Err(e) if e.kind() == ErrorKind::Interrupted => {}
            read => input.add(&part[..read?])?,
        }
    }
    Ok(input)
}

// Reads, runs and writes. Nothing is written before all of it is there. A refused plan is explained on standard error.
fn run(rt: &HostRuntime) -> io::Result<()> {
    let plan_text = text_of(rt.alloc(), fs::read(rt, "plan.oil"))?;
    let input = read_input(rt)?;
    let out = layrun(rt.alloc(), plan_text.as_slice(), input.as_slice())?;
    rt.stdout().write_all(out.as_slice())?;
    if let Some(line) = explanation(rt.alloc(), plan_text.as_slice())? {
        eprintln!(rt; "{line}")?;
    }
    Ok(())
}

fn main(rt: HostRuntime) -> ExitCode {
    exit_code(&rt, "layrun", run(&rt))
}
