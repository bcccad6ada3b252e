// A line for each record of an input.
ghost use Rattle.std.specs.Prelude.{◌≡◌, ℕ, Bool};
ghost use Rattle.kernel.specs.Meaning.{meaning};
ghost use Rattle.transcripts.specs.Lines.{lines_of, Grown};

use crate::service::serve;
use kernel::kernel::Kernel;
use sets::waiting::WaitingSet;
use std::alloc::AllocError;
use texts::lines::push_line;
use texts::records::cut_record;

// How many records of an input count.
pub const LIMIT: u32 = 1_000_000;

// Serves the kernel with the records of the input, of which the first 1,000,000 count, and adds a line for each
// to the output. The only error is want of memory for the lines. The output is taken by value, so that after an error
// nobody goes on with some of the lines.
pub fn transcribe<R: WaitingSet + Drop>(
    mut out: Vec<u8>,
    mut kernel: Kernel<R>,
    input: &[u8],
) -> Result<Vec<u8>, AllocError>
    ensures { Grown out (lines_of (meaning R.room R.holds kernel) input.now) result }
{
    let mut rest = input;
    // `cut_record` says how to go on. Tried with `std::iter::from_fn` over it and `zip`: the proof did not close, since the
    // check cannot state a loop over a closure that changes a borrowed slice.
    for count in 0..LIMIT {
        let Some((text, after)) = cut_record(rest) else {
            return Ok(out);
        };
        let report = serve(&mut kernel, text);
        push_line(&mut out, count + 1, &report)?;
        rest = after;
    }
    Ok(out)
}
