// A list of calls on a new kernel.
ghost use Rattle.std.specs.Prelude.{◌≡◌, ℕ, [], take, IfOk};
ghost use Rattle.machine.specs.Machine.{fresh, answers as answers_to, run as after_all};
ghost use Rattle.machine.specs.Laws.{history, paired, Lawful};
ghost use Rattle.kernel.specs.Meaning.{meaning};

use kernel::kernel::Kernel;
use machine::{Call, Refusal, Reply};
use sets::waiting::WaitingSet;
use std::alloc::{AllocError, Global};

// A kernel after a list of calls, and its answer to each.
#[derive(Drop)]
pub struct Finished<R: WaitingSet> {
    pub kernel: Kernel<R>,
    pub answers: Vec<Result<Reply, Refusal>>,
}

// Makes the calls on a new kernel over the set. The only error is want of memory. Otherwise the kernel is where the
// machine comes to and the answers are the machine's; after each call the history is lawful, and so is the history
// put together from the calls and the answers given, with no machine in the sentence.
pub fn run<R: WaitingSet + Drop>(
    heap: Global,
    set: R,
    calls: &[Call],
) -> Result<Finished<R>, AllocError>
    ensures after { IfOk result (λ x. meaning R.room R.holds x.kernel ≡ after_all calls.now (fresh (R.room set) (R.holds set))) }
    ensures told { IfOk result (λ x. x.answers.items ≡ answers_to calls.now (fresh (R.room set) (R.holds set))) }
    ensures lawful { IfOk result (λ x. (n : ℕ) → Lawful (history (R.room set) (R.holds set) (take n calls.now))) }
    ensures noted { IfOk result (λ x. (n : ℕ) → Lawful (paired (take n calls.now) (take n x.answers.items) [])) }
{
    let mut kernel = Kernel::new(set);
    let mut answers = Vec::with_capacity(heap, calls.len())?;
    for call in calls {
        answers.push(kernel.call(call))?;
    }
    Ok(Finished { kernel, answers })
}
