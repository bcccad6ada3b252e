// Install: the kernel gets its plan. The tests of each call stand in the order of the refusal table, here as in the other calls.
ghost use Rattle.machine.specs.declared.Call.TheVariants.{Install};
ghost use Rattle.kernel.specs.Meaning.{Follows};

use crate::kernel::Kernel;
use crate::refuse::refuse_if;
use machine::{Refusal, Reply};
use plan::record::Plan;
use sets::waiting::WaitingSet;
use vectors::highest;

impl<R: WaitingSet> Kernel<R> {
    // Gives the kernel its plan, with all marks clear.
    pub fn install(&mut self, plan: &Plan) -> Result<Reply, Refusal>
        ensures { Follows R.room R.holds (Install plan.now) self.old self.new result }
    {
        refuse_if(self.core.has_plan(), Refusal::AlreadyInstalled)?;
        let top = highest(plan.declared).ok_or(Refusal::NoTaskDeclared)?;
        refuse_if(self.set.size() <= top, Refusal::SetTooSmall)?;
        refuse_if(self.set.highest().is_some(), Refusal::SetNotEmpty)?;
        self.core.fit(plan);
        Ok(self.steady(None))
    }
}
