// The entries of a plan's blocking table, in rising order of resource, then lower task, then higher.
ghost use Rattle.std.specs.Prelude.{◌≡◌, IfOk};
ghost use Rattle.sheet.specs.Entries.{entries_of};
ghost use Rattle.sheet.specs.Tables.{ListsTable};

use plan::record::Plan;
use std::alloc::{AllocError, Global};

// What the list is made of, under this path too.
pub use plan::entry::Entry;

// All entries of the table, each once and in order; after each entry's three calls on a new kernel the lower task holds
// up the higher. The only error is want of memory.
pub fn entries(heap: Global, plan: &Plan) -> Result<Vec<Entry>, AllocError>
    ensures value { IfOk result (λ v. v.items ≡ entries_of plan.now) }
    ensures table { IfOk result (λ v. ListsTable plan.now v.items) }
{
    let mut out = Vec::new(heap);
    for resource in 0..u16::from(plan.resources) {
        for low in 0..64 {
            for high in 0..64 {
                let entry = Entry {
                    low,
                    high,
                    resource,
                };
                if plan.may_hold_up(entry) {
                    out.push(entry)?;
                }
            }
        }
    }
    Ok(out)
}
