// Items: what the plan has to judge, in the order of the text.
ghost use Rattle.std.specs.Prelude.{◌≡◌, Ok};
ghost use Rattle.grammar.specs.Items.{step};

use letters::token::Token;

// The kinds of objects.
#[derive(Clone, Copy, PartialEq, Debug)]
pub enum Kind {
    Resource,
    Event,
    Task,
}

#[derive(Clone, Copy, PartialEq, Debug)]
pub enum Item {
    // An object of this kind is declared under a name.
    Declares(Kind, Token),
    // The number after PRIORITY.
    Priority(u32, Token),
    // The number after ACTIVATION.
    Activation(u32, Token),
    // A task refers to a resource or an event by its name.
    Refers(Kind, Token),
    // A task ends.
    Closes,
    // The text ends.
    End,
}

// How far the text is read: right after an item, or at its start.
#[derive(Clone, Copy, PartialEq, Debug)]
pub enum State {
    Start,
    Declared(Kind),
    Prioritized,
    Activated,
    Referred,
    Closed,
}

// An item, the state after it, and where the text goes on.
#[derive(Clone, Copy, PartialEq, Debug)]
pub struct Step {
    pub item: Item,
    pub state: State,
    pub pos: usize,
}

impl Step {
    pub(crate) fn new(item: Item, state: State, pos: usize) -> Step
        ensures { Ok result ≡ step item state pos }
    {
        Step { item, state, pos }
    }
}
