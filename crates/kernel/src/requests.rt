// One call in, one answer out: the entry on which the laws of every run stand.
ghost use Rattle.std.specs.Prelude.{◌≡◌, Bool};
ghost use Rattle.machine.specs.Machine.{step, answer as answer_to};
ghost use Rattle.machine.specs.Laws.{StaysLawful};
ghost use Rattle.kernel.specs.Meaning.{meaning, Follows};

use crate::kernel::Kernel;
use machine::{Call, Refusal, Reply};
use sets::waiting::WaitingSet;

impl<R: WaitingSet> Kernel<R> {
    // Makes the call by its kind. Apart from `call`, which adds the law to its two facts.
    fn act(&mut self, c: &Call) -> Result<Reply, Refusal>
        ensures { Follows R.room R.holds c.now self.old self.new result }
    {
        match c {
            Call::Install(p) => self.install(p),
            Call::Release(v) => self.release(*v),
            Call::Lock(r) => self.lock(*r),
            Call::Unlock(r) => self.unlock(*r),
            Call::Exit => self.exit(),
            Call::Signal(e, v) => self.signal(*e, *v),
            Call::SignalRelease(e, v) => self.signal_release(*e, *v),
            Call::Test(e) => self.test(*e),
        }
    }

    // Makes the call. State and answer are the machine's; and after any calls on a new kernel that lead here, the
    // history with this call and its answer is lawful: exclusion, blocked at most once, exact table.
    pub fn call(&mut self, c: &Call) -> Result<Reply, Refusal>
        ensures after { meaning R.room R.holds self.new ≡ step c.now (meaning R.room R.holds self.old) }
        ensures value { result ≡ answer_to c.now (meaning R.room R.holds self.old) }
        ensures lawful { StaysLawful (meaning R.room R.holds self.old) c.now result }
    {
        self.act(c)
    }
}
