// Questions, which change nothing. A number out of range gets none or no.
ghost use Rattle.std.specs.Prelude.{◌≡◌, ◌+◌, ◌≤◌, Bool};
ghost use Rattle.vectors.specs.Vectors.{in_vector, vector_of};
ghost use Rattle.machine.specs.Schedules.{running as runs_in, holder as holder_in, system_ceiling_under};
ghost use Rattle.machine.specs.History.{ceiling_under};
ghost use Rattle.kernel.specs.Meaning.{meaning};
ghost use Rattle.kernel.specs.Parts.{below};

use crate::kernel::Kernel;
use sets::waiting::WaitingSet;
use vectors::with;

impl<R: WaitingSet> Kernel<R> {
    // The running task.
    pub fn running(&self) -> Option<u8>
        ensures { result ≡ runs_in (meaning R.room R.holds self.now).schedule }
    {
        self.core.chain.running()
    }

    // The vector v of the members below `first`, and the members of the row of eight that begins there.
    fn with_row(&self, v: u64, first: u8) -> u64
        requires row { first ≤ 56 }
        requires so_far { in_vector v ≡ below first (R.holds self.now.set) }
        ensures { in_vector result ≡ below (first + 8) (R.holds self.now.set) }
    {
        let mut members = v;
        for t in first..first + 8 {
            if self.set.has(t) {
                members = with(members, t);
            }
        }
        members
    }

    // The waiting tasks as a vector, read from the set. Row by row, since the compiler then joins the questions to
    // a set that is a vector itself: one loop over all 64 took more than half as many instructions more.
    pub fn waiting(&self) -> u64
        ensures { result ≡ vector_of 64 (meaning R.room R.holds self.now).schedule.waiting }
    {
        let mut members = 0;
        for row in 0..8 {
            members = self.with_row(members, 8 * row);
        }
        members
    }

    // The holder of resource r.
    pub fn holder(&self, r: u16) -> Option<u8>
        ensures { result ≡ holder_in (meaning R.room R.holds self.now).schedule.held r }
    {
        self.core.held.holder(r)
    }

    // The ceiling of resource r.
    pub fn ceiling(&self, r: u16) -> Option<u8>
        ensures { result ≡ ceiling_under (meaning R.room R.holds self.now).schedule.plan r }
    {
        self.core.ceiling(r)
    }

    // Whether task t is marked for event e.
    pub fn mark(&self, e: u16, t: u8) -> bool
        ensures { result ≡ (meaning R.room R.holds self.now).marks e t }
    {
        self.core.marked(e, t)
    }

    // The system ceiling.
    pub fn system_ceiling(&self) -> Option<u8>
        ensures { result ≡ system_ceiling_under (meaning R.room R.holds self.now).schedule.plan (meaning R.room R.holds self.now).schedule.held }
    {
        self.core.system_ceiling()
    }
}
