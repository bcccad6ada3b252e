// Signal-release: a signal, and then the release of the tasks meant.
ghost use Rattle.machine.specs.declared.Call.TheVariants.{SignalRelease};
ghost use Rattle.kernel.specs.Meaning.{Follows};

use crate::kernel::Kernel;
use machine::{Refusal, Reply, Word};
use sets::waiting::WaitingSet;

impl<R: WaitingSet> Kernel<R> {
    // Sets the marks of the tasks meant for event e, and releases them.
    pub fn signal_release(&mut self, e: u16, v: Option<u64>) -> Result<Reply, Refusal>
        ensures { Follows R.room R.holds (SignalRelease e v) self.old self.new result }
    {
        let meant = self.mark_meant(e, v)?;
        self.admit(meant);
        Ok(self.settle(Word::Same))
    }
}
