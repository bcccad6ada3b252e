// Lock and unlock. Each spells its own rows of the refusal table, the first two as well, so that it reads as they do.
ghost use Rattle.machine.specs.declared.Call.TheVariants.{Lock, Unlock};
ghost use Rattle.kernel.specs.Meaning.{Follows};

use crate::kernel::Kernel;
use crate::refuse::refuse_if;
use machine::{Refusal, Reply, Word};
use sets::waiting::WaitingSet;

impl<R: WaitingSet> Kernel<R> {
    // Locks resource r for the running task.
    pub fn lock(&mut self, r: u16) -> Result<Reply, Refusal>
        ensures { Follows R.room R.holds (Lock r) self.old self.new result }
    {
        let t = self.core.running()?;
        refuse_if(self.core.resources() <= r, Refusal::NotDeclared)?;
        refuse_if(!self.core.may_lock(r, t), Refusal::NotEntitled)?;
        refuse_if(self.core.held.has(r), Refusal::AlreadyHeld)?;
        self.core.lock(r);
        Ok(self.steady(None))
    }

    // Undoes the running task's lock of resource r, which has to be the newest.
    pub fn unlock(&mut self, r: u16) -> Result<Reply, Refusal>
        ensures { Follows R.room R.holds (Unlock r) self.old self.new result }
    {
        let t = self.core.running()?;
        refuse_if(self.core.resources() <= r, Refusal::NotDeclared)?;
        refuse_if(!self.core.held_by(r, t), Refusal::NotHolder)?;
        refuse_if(!self.core.locked_last(r), Refusal::LaterLockHeld)?;
        self.core.unlock();
        Ok(self.settle(Word::Same))
    }
}
