// One record served: its call is made, if it spells one, and a report tells what came of it.
ghost use Rattle.std.specs.Prelude.{◌≡◌, ℕ, Bool};
ghost use Rattle.kernel.specs.Meaning.{meaning};
ghost use Rattle.texts.specs.Requests.{asked};
ghost use Rattle.transcripts.specs.Reports.{report_on, report_with as told_with, after_record, report_after};

use kernel::kernel::Kernel;
use machine::{Refusal, Reply};
use sets::waiting::WaitingSet;
use texts::outcomes::{Outcome, Report};
use texts::requests::read_call;

// What the kernel tells of itself, beside an outcome and a mark.
fn report<R: WaitingSet>(kernel: &Kernel<R>, outcome: Outcome, mark: Option<bool>) -> Report
    ensures { result ≡ report_on (meaning R.room R.holds kernel.now) outcome mark }
{
    Report {
        outcome,
        running: kernel.running(),
        waiting: kernel.waiting(),
        ceiling: kernel.system_ceiling(),
        mark,
    }
}

// What a kernel tells after a call that it gave this answer.
pub fn report_with<R: WaitingSet>(kernel: &Kernel<R>, answer: Result<Reply, Refusal>) -> Report
    ensures { result ≡ told_with answer (meaning R.room R.holds kernel.now) }
{
    match answer {
        Ok(reply) => report(kernel, Outcome::Accepted, reply.mark),
        Err(why) => report(kernel, Outcome::Refused(why), None),
    }
}

// Serves a record. One that spells no call leaves the kernel as it was.
pub fn serve<R: WaitingSet>(kernel: &mut Kernel<R>, text: &[u8]) -> Report
    ensures after { meaning R.room R.holds kernel.new ≡ after_record (asked text.now) (meaning R.room R.holds kernel.old) }
    ensures value { result ≡ report_after (asked text.now) (meaning R.room R.holds kernel.old) }
{
    let Some(call) = read_call(text) else {
        return report(kernel, Outcome::Unreadable, None);
    };
    let answer = kernel.call(&call);
    report_with(kernel, answer)
}
