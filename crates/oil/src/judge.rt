// What an item does to the draft and to the table of names. The table is the caller's memory: a struct of both could
// only borrow it, and each clause would name its two parts as it names them now.
ghost use Rattle.std.specs.Prelude.{◌≡◌, ◌≤◌, length};
ghost use Rattle.oil.specs.Table.{looked, find, known_by};
ghost use Rattle.oil.specs.Draft.{grown};
ghost use Rattle.oil.specs.Judging.{unless_known, referred_by, judged};
ghost use Rattle.oil.specs.Records.{AllOk, entered, record_under, noted, ItemIn, Ready};

use crate::draft::Draft;
use crate::fault::{PlanCause, PlanFault};
use crate::table::{NameRecord, key, look_up};
use grammar::item::{Item, Kind};
use letters::token::bytes_of;

// Declares an object, and enters the key of its name.
fn declare(
    names: &mut [NameRecord],
    draft: Draft,
    kind: Kind,
    name: [u8; 32],
    place: usize,
) -> Result<Draft, PlanFault>
    requires room { 128 ≤ length names.old }
    ensures value { result ≡ unless_known (known_by (find names.old name)) place (grown draft kind place) }
    ensures after { names.new ≡ entered names.old draft (record_under draft kind name) result }
{
    if look_up(names, name).is_some() {
        return Err(PlanFault::new(PlanCause::NameTaken, place));
    }
    let after = draft.grow(kind, place)?;
    names[draft.used()] = NameRecord {
        name,
        holds: Some(kind),
        number: draft.next_number(kind),
    };
    Ok(after)
}

// Adds the task at hand to the users of a resource or to the tasks registered for an event.
fn refer(
    names: &[NameRecord],
    draft: Draft,
    kind: Kind,
    name: [u8; 32],
    place: usize,
) -> Result<Draft, PlanFault>
    requires sound { AllOk draft names.now }
    ensures value { result ≡ referred_by draft kind (known_by (find names.now name)) place }
{
    let fault = PlanFault::new(PlanCause::NotKnown, place);
    // Taken apart where the name is looked up, since the fault belongs to it.
    let Some(record) = look_up(names, name) else {
        return Err(fault);
    };
    match (kind, record.kind) {
        (Kind::Resource, Kind::Resource) => Ok(draft.add_user(record.number)),
        (Kind::Event, Kind::Event) => Ok(draft.register(record.number)),
        _ => Err(fault),
    }
}

// The draft after an item.
pub(crate) fn judge(
    text: &[u8],
    names: &mut [NameRecord],
    draft: Draft,
    item: Item,
) -> Result<Draft, PlanFault>
    requires within { ItemIn text.now item }
    requires ready { Ready draft names.old }
    ensures value { result ≡ judged text.now (looked names.old) draft item }
    ensures after { names.new ≡ noted text.now names.old draft item }
{
    match item {
        Item::Declares(kind, token) => {
            let name = key(bytes_of(text, token));
            declare(names, draft, kind, name, token.place)
        }
        Item::Priority(value, token) => draft.prioritize(value, token.place),
        Item::Activation(value, token) => draft.activate(value, token.place),
        Item::Refers(kind, token) => {
            let name = key(bytes_of(text, token));
            refer(names, draft, kind, name, token.place)
        }
        Item::Closes => Ok(draft),
        Item::End => draft.finish(text.len()),
    }
}
