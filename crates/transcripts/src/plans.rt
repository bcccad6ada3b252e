// The plan of a text.
ghost use Rattle.transcripts.specs.Outputs.{ReadAs};

use oil::fault::PlanFault;
use oil::reader::read;
use oil::table::NameRecord;
use plan::record::Plan;

// The plan that a text means, or its first fault.
pub fn read_plan(text: &[u8]) -> Result<Plan, PlanFault>
    ensures { ReadAs text.now result }
{
    let mut names = [NameRecord::empty(); 128];
    let mut plan = Plan::unfilled();
    read(text, &mut names, &mut plan)?;
    Ok(plan)
}
