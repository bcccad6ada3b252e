// The whole sheet of a plan text.
ghost use Rattle.std.specs.Prelude.{◌≡◌, ◌++◌, IfOk, Result, OnOk};
ghost use Rattle.transcripts.specs.Outputs.{ReadAs};
ghost use Rattle.sheet.specs.Pages.{body_for, sheet_for};
ghost use Rattle.sheet.specs.Entries.{entries_of};
ghost use Rattle.sheet.specs.Lines.{sheet_lines};

use crate::entries::entries;
use crate::lines::push_entries;
use oil::fault::PlanFault;
use plan::record::Plan;
use std::alloc::{AllocError, Global};
use texts::tables::Table;
use transcripts::plans::read_plan;

// The sheet of what a plan text came to. `tell` of the transcripts has the same steps; one function for both would be
// public and take what fills the table as a closure, and so ask something of its caller.
pub fn sheet_of(heap: Global, read: &Result<Plan, PlanFault>) -> Result<Vec<u8>, AllocError>
    ensures { IfOk result (λ v. v.items ≡ sheet_for read.now) }
{
    let mut out = Vec::new(heap);
    Table::Sheet.push_header(&mut out)?;
    match read {
        Ok(plan) => {
            let all = entries(heap, plan)?;
            push_entries(heap, &mut out, plan, all.as_slice())?;
        }
        Err(fault) => Table::Sheet.push_fault(&mut out, fault.number(), fault.place())?,
    }
    Ok(out)
}

// The sheet of a plan text: the header, and three lines for each entry of the blocking table of the plan that the text
// means, in order; or for a refused plan the line of its fault. The only error is want of memory.
pub fn blocksheet(heap: Global, plan_text: &[u8]) -> Result<Vec<u8>, AllocError>
    ensures { IfOk result (λ v. (x : Result Plan PlanFault) × ReadAs plan_text.now x × (v.items ≡ sheet_for x)) }
{
    sheet_of(heap, &read_plan(plan_text))
}
