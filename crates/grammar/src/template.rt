// What has to stand after a state, before the next token that is judged.
ghost use Rattle.std.specs.Prelude.{◌≡◌};
ghost use Rattle.grammar.specs.Items.{template};

use crate::item::{Kind, State};
use crate::slot::Slot;
use crate::word::Word;
use letters::token::Mark;

// OIL_VERSION = "2.5"; CPU name {
const START: [Slot; 7] = [
    Slot::Word(Word::OilVersion),
    Slot::Mark(Mark::Equals),
    Slot::Version,
    Slot::Mark(Mark::Semicolon),
    Slot::Word(Word::Cpu),
    Slot::AnyName,
    Slot::Mark(Mark::Open),
];

// { RESOURCEPROPERTY = STANDARD; }; written out, as the next: a constant's value calls no function, not even a const one.
const RESOURCE: [Slot; 7] = [
    Slot::Mark(Mark::Open),
    Slot::Word(Word::ResourceProperty),
    Slot::Mark(Mark::Equals),
    Slot::Word(Word::Standard),
    Slot::Mark(Mark::Semicolon),
    Slot::Mark(Mark::Close),
    Slot::Mark(Mark::Semicolon),
];

// { MASK = AUTO; };
const EVENT: [Slot; 7] = [
    Slot::Mark(Mark::Open),
    Slot::Word(Word::Mask),
    Slot::Mark(Mark::Equals),
    Slot::Word(Word::Auto),
    Slot::Mark(Mark::Semicolon),
    Slot::Mark(Mark::Close),
    Slot::Mark(Mark::Semicolon),
];

// { PRIORITY =
const TASK: [Slot; 3] = [
    Slot::Mark(Mark::Open),
    Slot::Word(Word::Priority),
    Slot::Mark(Mark::Equals),
];

// ; SCHEDULE = FULL; ACTIVATION =
const PRIORITIZED: [Slot; 7] = [
    Slot::Mark(Mark::Semicolon),
    Slot::Word(Word::Schedule),
    Slot::Mark(Mark::Equals),
    Slot::Word(Word::Full),
    Slot::Mark(Mark::Semicolon),
    Slot::Word(Word::Activation),
    Slot::Mark(Mark::Equals),
];

// ; AUTOSTART = FALSE;
const ACTIVATED: [Slot; 5] = [
    Slot::Mark(Mark::Semicolon),
    Slot::Word(Word::Autostart),
    Slot::Mark(Mark::Equals),
    Slot::Word(Word::False),
    Slot::Mark(Mark::Semicolon),
];

// The slots after a state.
pub(crate) fn slots_after(state: State) -> &'static [Slot]
    ensures { result.now ≡ template state }
{
    match state {
        State::Start => &START,
        State::Declared(Kind::Resource) => &RESOURCE,
        State::Declared(Kind::Event) => &EVENT,
        State::Declared(Kind::Task) => &TASK,
        State::Prioritized => &PRIORITIZED,
        State::Activated => &ACTIVATED,
        State::Referred | State::Closed => &[Slot::Mark(Mark::Semicolon)],
    }
}
