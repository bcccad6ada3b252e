// The lines of the sheet: three for each entry, from a real run of a new kernel.
ghost use Rattle.std.specs.Prelude.{◌≡◌, ℕ, Bool, true, ◌++◌, OnOk};
ghost use Rattle.plan.specs.Plans.{may_hold_up};
ghost use Rattle.machine.specs.Machine.{step};
ghost use Rattle.kernel.specs.Meaning.{meaning};
ghost use Rattle.texts.specs.Sheets.{sheet_line, call_shown};
ghost use Rattle.sheet.specs.Lines.{told_of, entry_lines, sheet_lines, AllInTable};

use kernel::kernel::Kernel;
use machine::Call;
use plan::entry::Entry;
use plan::record::Plan;
use runs::lists::run;
use sets::waiting::WaitingSet;
use sets::word::WordSet;
use std::alloc::{AllocError, Global};
use texts::sheets::{ShownCall, push_sheet_line};
use transcripts::service::report_with;

// Makes a call of the run that shows an entry, and adds its line.
fn push_call<R: WaitingSet>(
    out: &mut Vec<u8>,
    kernel: &mut Kernel<R>,
    e: Entry,
    shown: ShownCall,
) -> Result<(), AllocError>
    ensures after { meaning R.room R.holds kernel.new ≡ step (call_shown shown) (meaning R.room R.holds kernel.old) }
    ensures line { OnOk result (out.new.items ≡ out.old.items ++ sheet_line e.low e.high e.resource shown (told_of (call_shown shown) (meaning R.room R.holds kernel.old))) }
{
    let answer = kernel.call(&Call::from(shown));
    let report = report_with(kernel, answer);
    push_sheet_line(out, e, shown, &report)
}

// Adds the three lines of an entry of the plan's table, on a kernel that has run its install. The calls are those of
// `runs::entries::show_entry`; here a line is told between them, and the kernel is not handed on.
fn push_entry(heap: Global, out: &mut Vec<u8>, plan: &Plan, e: Entry) -> Result<(), AllocError>
    requires { may_hold_up plan.now e.low e.high e.resource ≡ true }
    ensures { OnOk result (out.new.items ≡ out.old.items ++ entry_lines plan.now e) }
{
    let mut begun = run(heap, WordSet::new(64), &[Call::Install(*plan)])?;
    push_call(out, &mut begun.kernel, e, ShownCall::Release(e.low))?;
    push_call(out, &mut begun.kernel, e, ShownCall::Lock(e.resource))?;
    push_call(out, &mut begun.kernel, e, ShownCall::Release(e.high))
}

// Adds the lines of the entries of the plan's table.
pub(crate) fn push_entries(
    heap: Global,
    out: &mut Vec<u8>,
    plan: &Plan,
    entries: &[Entry],
) -> Result<(), AllocError>
    requires { AllInTable plan.now entries.now }
    ensures { OnOk result (out.new.items ≡ out.old.items ++ sheet_lines plan.now entries.now) }
{
    for e in entries {
        push_entry(heap, out, plan, *e)?;
    }
    Ok(())
}
