// Signal and test: marks are set, told and cleared.
ghost use Rattle.std.specs.Prelude.{◌≡◌, Bool, IfOk};
ghost use Rattle.std.specs.Result.{result_err};
ghost use Rattle.vectors.specs.Vectors.{in_vector};
ghost use Rattle.machine.specs.declared.Call.TheVariants.{Signal, Test};
ghost use Rattle.machine.specs.Moves.{meant_under};
ghost use Rattle.machine.specs.Refusals.{refusal};
ghost use Rattle.machine.specs.Machine.{step};
ghost use Rattle.kernel.specs.Meaning.{meaning, Follows};

use crate::kernel::Kernel;
use crate::refuse::refuse_if;
use machine::{Refusal, Reply};
use sets::waiting::WaitingSet;

impl<R: WaitingSet> Kernel<R> {
    // Sets the marks of the tasks meant for event e, and tells these.
    pub(crate) fn mark_meant(&mut self, e: u16, v: Option<u64>) -> Result<u64, Refusal>
        ensures after { meaning R.room R.holds self.new ≡ step (Signal e v) (meaning R.room R.holds self.old) }
        ensures told { IfOk result (λ w. in_vector w ≡ meant_under (meaning R.room R.holds self.old).schedule.plan e v) }
        ensures refused { result_err result ≡ refusal (Signal e v) (meaning R.room R.holds self.old).schedule }
    {
        refuse_if(self.core.events() <= e, Refusal::NotDeclared)?;
        refuse_if(self.core.any_unregistered(e, v), Refusal::ForeignTask)?;
        let meant = self.core.meant(e, v);
        self.core.set_marks(e, meant);
        Ok(meant)
    }

    // Sets the marks of the tasks meant for event e.
    pub fn signal(&mut self, e: u16, v: Option<u64>) -> Result<Reply, Refusal>
        ensures { Follows R.room R.holds (Signal e v) self.old self.new result }
    {
        self.mark_meant(e, v)?;
        Ok(self.steady(None))
    }

    // Tells the running task's mark for event e, and clears it.
    pub fn test(&mut self, e: u16) -> Result<Reply, Refusal>
        ensures { Follows R.room R.holds (Test e) self.old self.new result }
    {
        let t = self.core.running()?;
        refuse_if(self.core.events() <= e, Refusal::NotDeclared)?;
        refuse_if(!self.core.may_test(e, t), Refusal::NotEntitled)?;
        let marked = self.core.marked(e, t);
        self.core.clear_mark(e, t);
        Ok(self.steady(Some(marked)))
    }
}
