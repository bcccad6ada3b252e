// One line that helps to mend a refused plan text: file, line, column, and what was wrong.
ghost use Rattle.std.specs.Prelude.{◌≡◌, ◌++◌, IfOk, string_bytes};
ghost use Rattle.transcripts.specs.Diagnosis.{diagnosis};

use oil::fault::PlanFault;
use oil::position::locate;
use std::alloc::{AllocError, Global};

// The line for a fault of the plan text in plan.oil.
pub fn diagnose(heap: Global, text: &[u8], fault: &PlanFault) -> Result<String, AllocError>
    ensures { IfOk result (λ s. string_bytes s ≡ diagnosis text.now fault.now) }
{
    let at = locate(text, fault.place());
    format!(in heap; "plan.oil:{}:{}: {fault}", at.line, at.column)
}
