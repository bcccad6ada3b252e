// What the programs share: the plan text that they read, what they tell of a refused one, and how they end. What comes
// between stands in each program: one function for both would be public and take a closure, and so ask something of its
// caller.
ghost use Rattle.std.specs.Prelude.{is_ok, if◌then◌else◌, ◌≡◌, IfOk};
ghost use Rattle.std.specs.Process.{exit_status};
ghost use Rattle.transcripts.specs.Programs.{TextOf, Explains};

use crate::diagnosis::diagnose;
use crate::plans::read_plan;
use std::alloc::{AllocError, Global};
use std::io;
use std::io::ErrorKind;
use std::process::ExitCode;

// The plan text that was read. A file that cannot be read counts as an empty one; want of memory is an error.
pub fn text_of(heap: Global, read: io::Result<Vec<u8>>) -> io::Result<Vec<u8>>
    ensures { TextOf read result }
{
    match read {
        Err(e) if e.kind() != ErrorKind::OutOfMemory => Ok(Vec::new(heap)),
        read => read,
    }
}

// The line that explains a refused plan text; none where the text means a plan. The only error is want of memory.
pub fn explanation(heap: Global, text: &[u8]) -> Result<Option<String>, AllocError>
    ensures { IfOk result (λ line. Explains text.now line) }
{
    let Err(fault) = read_plan(text) else {
        return Ok(None);
    };
    Ok(Some(diagnose(heap, text, &fault)?))
}

// How a program ends: well, or for an error with a line on standard error and status 1.
pub fn exit_code<R: Eprint>(rt: &R, program: &str, ended: io::Result<()>) -> ExitCode
    ensures { exit_status result ≡ (if is_ok ended then 0 else 1) }
{
    let Err(e) = ended else {
        return ExitCode::SUCCESS;
    };
    let _ = eprintln!(rt; "{program}: {e}");
    ExitCode::FAILURE
}
