// The line of the blocking sheet that tells of one call of the run that shows an entry: eight fields, and CR LF.
ghost use Rattle.std.specs.Prelude.{◌≡◌, ◌+◌, ◌≤◌, [], ◌++◌, decimal, OnOk};
ghost use Rattle.texts.specs.Fronts.{text_of, Puts};
ghost use Rattle.texts.specs.Outputs.{Appended};
ghost use Rattle.texts.specs.Lines.{field};
ghost use Rattle.texts.specs.Sheets.{call_shown, call_text, entry_part, report_part, sheet_line};

use crate::fronts::Front;
use crate::outcomes::Report;
use machine::Call;
use plan::entry::Entry;
use std::alloc::AllocError;

// A call of such a run: the release of one task, or the lock of a resource.
#[derive(Clone, Copy, PartialEq, Debug)]
pub enum ShownCall {
    Release(u8),
    Lock(u16),
}

// The call that is shown.
impl From<ShownCall> for Call {
    ghost from_gives = { λ shown call. call ≡ call_shown shown };

    fn from(shown: ShownCall) -> Call {
        match shown {
            // Callers may pass any number, and tasks are at most 63.
            ShownCall::Release(t) => Call::Release(1 << t.min(63)),
            ShownCall::Lock(r) => Call::Lock(r),
        }
    }
}

impl Front {
    // Puts the call before the text: a task's vector is written without leading zeros.
    fn put_call(&mut self, call: ShownCall)
        requires { 25 ≤ self.old.start }
        ensures { Puts 25 (λ text. call_text call ++ text) self.old self.new }
    {
        match call {
            ShownCall::Release(t) => {
                // Callers may pass any number, and tasks are at most 63.
                let task = t.min(63);
                self.put_digits(1 << task, task / 4 + 1);
                self.put_all(b"release ");
            }
            ShownCall::Lock(r) => {
                self.put_decimal(u64::from(r));
                self.put_all(b"lock ");
            }
        }
    }
}

// The first four fields: the entry's numbers, and the call.
fn entry_text(entry: Entry, call: ShownCall) -> Front
    ensures { text_of result ≡ entry_part entry.low entry.high entry.resource call [] }
{
    let mut text = Front::empty();
    text.put(b',');
    text.put_call(call);
    text.put_number(u64::from(entry.resource));
    text.put_number(u64::from(entry.high));
    text.put_number(u64::from(entry.low));
    text
}

// The last four fields: what came of the call, the running task, the waiting tasks and the ceiling; and the line end.
fn report_text(report: &Report) -> Front
    ensures { text_of result ≡ report_part report.now }
{
    let mut text = Front::empty();
    text.put_all(b"\r\n");
    text.put_some(report.ceiling);
    text.put_vector(report.waiting);
    text.put_optional(report.running);
    text.put_number(u64::from(report.outcome.number()));
    text
}

// Adds the line of one call of the run that shows an entry. The only error is want of memory.
pub fn push_sheet_line(
    out: &mut Vec<u8>,
    entry: Entry,
    call: ShownCall,
    report: &Report,
) -> Result<(), AllocError>
    ensures { OnOk result (out.new.items ≡ out.old.items ++ sheet_line entry.low entry.high entry.resource call report.now) }
{
    entry_text(entry, call).add_to(out)?;
    report_text(report).add_to(out)
}
