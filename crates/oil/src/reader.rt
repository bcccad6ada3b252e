// Reads a plan text: item by item into a draft, and from a complete draft into the plan record.
ghost use Rattle.std.specs.Prelude.{◌≡◌, ◌≤◌, length, replicate};
ghost use Rattle.oil.specs.Table.{blank};
ghost use Rattle.oil.specs.Records.{left_after};
ghost use Rattle.oil.specs.Reading.{read_all, BoundFree};
ghost use Rattle.oil.specs.Outcome.{outcome, table_after, PlanAfter};
ghost use Rattle.oil.specs.Meaning.{Understood};
ghost use Rattle.oil.specs.First.{LeftFree, RightFree};

use crate::draft::{Draft, EVENTS, RESOURCES, TASKS};
use crate::fault::{PlanCause, PlanFault};
use crate::judge::judge;
use crate::table::NameRecord;
use grammar::item::Item;
use grammar::parser::{begin, next_item};
use plan::record::Plan;

// How many records a table needs: one for each task, resource and event. By `as`, since a constant's value calls no function.
const RECORDS: usize = TASKS as usize + RESOURCES as usize + EVENTS as usize;

// Reads a whole text, with an empty table.
fn gather(text: &[u8], names: &mut [NameRecord]) -> Result<Draft, PlanFault>
    requires blank { names.old ≡ replicate (length names.old) blank }
    requires room { 128 ≤ length names.old }
    ensures value { result ≡ read_all text.now }
    ensures after { names.new ≡ left_after text.now names.old }
{
    let mut state = begin(text)?;
    let mut draft = Draft::empty();
    let mut pos = 0;
    loop {
        let step = next_item(text, state, pos)?;
        draft = judge(text, names, draft, step.item)?;
        if step.item == Item::End {
            return Ok(draft);
        }
        state = step.state;
        pos = step.pos;
    }
}

// Reads a text into a plan, with a table of at least 128 records for the names; both are the caller's memory.
// What it promises of every text:
// value: the answer is what the definitions give, item by item from the left;
// table: a table that is large enough is left empty, any other as it was;
// plan: an accepted text gives its plan, and a refusal leaves the plan as it was;
// meaning: a text is accepted exactly if its tokens spell a well-formed tree of objects, and the plan is the tree's;
// bound: the bound that the definitions put on the number of items is never reached;
// nothing_left: cut just before its fault, a text is accepted or refused only for having ended;
// nothing_right: every text that agrees through the byte after the faulty token has the same fault.
#[tactic(auto, using(crate::proofs::Bounds::bound_free))]
pub fn read(text: &[u8], names: &mut [NameRecord], plan: &mut Plan) -> Result<(), PlanFault>
    ensures value { result ≡ outcome text.now (length names.old) }
    ensures table { names.new ≡ table_after names.old }
    ensures plan { PlanAfter text.now (length names.old) plan.old plan.new result }
    ensures meaning { Understood text.now (length names.old) plan.new result }
    ensures bound { BoundFree text.now }
    ensures nothing_left { LeftFree text.now (length names.old) result }
    ensures nothing_right { RightFree text.now (length names.old) result }
{
    if names.len() < RECORDS {
        return Err(PlanFault::new(PlanCause::SmallTable, 0));
    }
    names.fill(NameRecord::empty());
    let gathered = gather(text, names);
    names.fill(NameRecord::empty());
    let draft = gathered?;
    *plan = Plan::from(draft);
    Ok(())
}
