// An entry of the blocking table, shown by a run.
ghost use Rattle.std.specs.Prelude.{◌≡◌, Bool, true, false, ◌&&◌, MatchOption};
ghost use Rattle.machine.specs.declared.Call.TheVariants.{Install};
ghost use Rattle.plan.specs.Plans.{may_hold_up};
ghost use Rattle.machine.specs.Machine.{fresh, answer as answer_to};
ghost use Rattle.machine.specs.History.{accepted};
ghost use Rattle.kernel.specs.Meaning.{meaning};
ghost use Rattle.runs.specs.Entries.{Shows};

use kernel::kernel::Kernel;
use plan::entry::Entry;
use plan::record::Plan;
use sets::waiting::WaitingSet;

// A new kernel over the set on which the lower task of an entry holds up the higher one over the resource, after
// install, release of the lower task, lock of the resource and release of the higher task; none where the table has no
// such entry, or the kernel does not take the plan.
pub fn show_entry<R: WaitingSet + Drop>(set: R, plan: &Plan, e: Entry) -> Option<Kernel<R>>
    ensures { MatchOption result ((may_hold_up plan.now e.low e.high e.resource && accepted (answer_to (Install plan.now) (fresh (R.room set) (R.holds set)))) ≡ false) (λ k. Shows plan.now e.low e.high e.resource (R.room set) (R.holds set) (meaning R.room R.holds k)) }
{
    let mut kernel = Kernel::new(set);
    if !plan.may_hold_up(e) || kernel.install(plan).is_err() {
        return None;
    }
    let _ = kernel.release(1 << e.low);
    let _ = kernel.lock(e.resource);
    let _ = kernel.release(1 << e.high);
    Some(kernel)
}
