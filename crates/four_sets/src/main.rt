// Runs one list of calls over a kernel on each make of waiting set, and prints the lines of the first and whether those
// of the others are equal: a word set, a two-level set, a pair of words, and a pair of a pair and a two-level set, which
// is the first alone.
#![tactic(auto)]

ghost use Rattle.std.specs.Prelude.{◌≡◌, ℕ, Bool, IfOk};
ghost use Rattle.machine.specs.declared.Call.TheVariants.{Install};
ghost use Rattle.machine.specs.Machine.{fresh, step};
ghost use Rattle.transcripts.specs.Lines.{lines_of};

use plan::record::Plan;
use sets::pair::Pair;
use sets::two_level::TwoLevelSet;
use sets::waiting::WaitingSet;
use sets::word::WordSet;
use std::alloc::{AllocError, Global};
use std::io::Write;
use std::{fs, io};
use transcripts::outputs::started;
use transcripts::plans::read_plan;
use transcripts::runs::transcribe;

// The lines of the calls on a kernel over the set with the plan installed.
fn lines<R: WaitingSet + Drop>(
    heap: Global,
    set: R,
    plan: Plan,
    calls: &[u8],
) -> Result<Vec<u8>, AllocError>
    ensures { IfOk result (λ v. v.items ≡ lines_of (step (Install plan) (fresh (R.room set) (R.holds set))) calls.now) }
{
    transcribe(Vec::new(heap), started(set, plan), calls)
}

// A plan, the calls that are made on it, and the lines that they are to give over each set.
#[derive(Clone, Copy)]
struct Case<'a> {
    plan: Plan,
    calls: &'a [u8],
    wanted: &'a [u8],
}

impl Case<'_> {
    // Prints whether the lines over a set are those that are wanted.
    fn compare<R: WaitingSet + Drop>(
        &self,
        rt: &HostRuntime,
        name: &str,
        set: R,
    ) -> io::Result<()> {
        let found = lines(rt.alloc(), set, self.plan, self.calls)?;
        let verdict = if found.as_slice() == self.wanted {
            "equal"
        } else {
            "other"
        };
        println!(rt; "{name}: {verdict} lines")
    }
}

// Runs the calls over each set.
fn run(rt: &HostRuntime, plan: Plan, calls: &[u8]) -> io::Result<()> {
    let first = lines(rt.alloc(), WordSet::new(64), plan, calls)?;
    let wanted = first.as_slice();
    rt.stdout().write_all(wanted)?;
    let case = Case {
        plan,
        calls,
        wanted,
    };
    case.compare(rt, "two-level set", TwoLevelSet::new())?;
    let words = Pair::new(WordSet::new(40), WordSet::new(24));
    case.compare(rt, "pair of words of 40 and 24", words)?;
    let nested = Pair::new(
        Pair::new(WordSet::new(40), WordSet::new(24)),
        TwoLevelSet::new(),
    );
    case.compare(rt, "pair of a pair and a two-level set", nested)
}

fn main(rt: HostRuntime) -> io::Result<()> {
    let text = fs::read(&rt, "plan.oil")?;
    let calls = fs::read(&rt, "calls")?;
    match read_plan(text.as_slice()) {
        Ok(plan) => run(&rt, plan, calls.as_slice()),
        Err(fault) => {
            let number = fault.number();
            println!(rt; "plan refused: {number}")
        }
    }
}
