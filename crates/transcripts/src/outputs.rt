// The whole output for a plan text and an input.
ghost use Rattle.std.specs.Prelude.{◌≡◌, ℕ, Bool, IfOk, Result};
ghost use Rattle.machine.specs.declared.Call.TheVariants.{Install};
ghost use Rattle.machine.specs.Machine.{fresh, step};
ghost use Rattle.kernel.specs.Meaning.{meaning};
ghost use Rattle.oil.specs.Faults.{number_of};
ghost use Rattle.texts.specs.Lines.{header, fault_line};
ghost use Rattle.transcripts.specs.Lines.{lines_of, Grown};
ghost use Rattle.transcripts.specs.Outputs.{ReadAs, begun, body_for, output_for};

use crate::plans::read_plan;
use crate::rooms::{room_for, with_room};
use crate::runs::transcribe;
use kernel::kernel::Kernel;
use machine::Call;
use oil::fault::PlanFault;
use plan::record::Plan;
use sets::waiting::WaitingSet;
use sets::word::WordSet;
use std::alloc::{AllocError, Global};
use texts::tables::Table;

// A new kernel over the set, to which the plan was offered.
pub fn started<R: WaitingSet>(set: R, plan: Plan) -> Kernel<R>
    ensures { meaning R.room R.holds result ≡ step (Install plan) (fresh (R.room set) (R.holds set)) }
{
    let mut kernel = Kernel::new(set);
    let _ = kernel.call(&Call::Install(plan));
    kernel
}

// Adds the output of layrun on a plan text and an input to a vector: the header, and a line for each of the first
// 1,000,000 records; or for a refused plan the line of its fault. The only error is want of memory.
pub fn tell(mut out: Vec<u8>, plan_text: &[u8], input: &[u8]) -> Result<Vec<u8>, AllocError>
    ensures { (x : Result Plan PlanFault) × ReadAs plan_text.now x × Grown out (output_for x input.now) result }
{
    let read = read_plan(plan_text);
    Table::Calls.push_header(&mut out)?;
    match read {
        Ok(plan) => transcribe(out, started(WordSet::new(64), plan), input),
        Err(fault) => {
            Table::Calls.push_fault(&mut out, fault.number(), fault.place())?;
            Ok(out)
        }
    }
}

// The output of layrun on a plan text and an input.
pub fn layrun(heap: Global, plan_text: &[u8], input: &[u8]) -> Result<Vec<u8>, AllocError>
    ensures { IfOk result (λ v. (x : Result Plan PlanFault) × ReadAs plan_text.now x × (v.items ≡ output_for x input.now)) }
{
    tell(with_room(heap, room_for(input)), plan_text, input)
}
