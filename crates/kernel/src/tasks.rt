// Release and exit: tasks come and go.
ghost use Rattle.machine.specs.declared.Call.TheVariants.{Release, Exit};
ghost use Rattle.kernel.specs.Meaning.{Follows};

use crate::kernel::Kernel;
use crate::refuse::refuse_if;
use machine::{Refusal, Reply, Word};
use sets::waiting::WaitingSet;

impl<R: WaitingSet> Kernel<R> {
    // Releases the tasks of v; one that waits or has started is absorbed.
    pub fn release(&mut self, v: u64) -> Result<Reply, Refusal>
        ensures { Follows R.room R.holds (Release v) self.old self.new result }
    {
        refuse_if(self.core.any_undeclared(v), Refusal::ForeignTask)?;
        self.admit(v);
        Ok(self.settle(Word::Same))
    }

    // Ends the running task.
    pub fn exit(&mut self) -> Result<Reply, Refusal>
        ensures { Follows R.room R.holds Exit self.old self.new result }
    {
        self.core.running()?;
        refuse_if(self.core.running_holds(), Refusal::StillHolding)?;
        self.core.end_running();
        let below = self.core.chain.running();
        let otherwise = below.map_or(Word::Idle, |_| Word::Resumed);
        Ok(self.settle(otherwise))
    }
}
