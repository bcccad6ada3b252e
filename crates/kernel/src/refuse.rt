// How a test of the refusal table turns a call down.
ghost use Rattle.std.specs.Prelude.{◌≡◌, Bool, Ok, Err, if◌then◌else◌};

use machine::Refusal;

// Turns the call down where the cause holds.
pub(crate) fn refuse_if(cause: bool, refusal: Refusal) -> Result<(), Refusal>
    ensures { result ≡ (if cause then Err refusal else Ok tt) }
{
    if cause {
        return Err(refusal);
    }
    Ok(())
}
