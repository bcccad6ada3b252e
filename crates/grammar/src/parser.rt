// From item to item.
// A text and a place in it are passed on as they are, so that one equation says all that a call does, as
// `result ≡ item_at text.now state pos`: a parser that moves on needs two, for its answer and for where it stands then.
ghost use Rattle.std.specs.Prelude.{◌≡◌};
ghost use Rattle.grammar.specs.Items.{begun, named, numeral_at, heading, object_at, attribute_at, item_at};

use crate::fault::GrammarFault;
use crate::item::{Item, Kind, State, Step};
use crate::slot::{Slot, expect, fits, follow};
use crate::template::slots_after;
use crate::word::Word;
use letters::lexer::{measure, next};
use letters::token::{Mark, Token, What};

// The state at the start of a text that is short enough to be read.
pub fn begin(text: &[u8]) -> Result<State, GrammarFault>
    ensures { result ≡ begun text.now }
{
    measure(text)?;
    Ok(State::Start)
}

// Reads a name. One function for this, `numeral` and `expect`, with the test as a closure, was tried: what the three
// promise was not proved from its clause.
fn name(text: &[u8], pos: usize) -> Result<Token, GrammarFault>
    ensures { result ≡ named text.now pos }
{
    let token = next(text, pos)?;
    if token.what == What::Name {
        Ok(token)
    } else {
        Err(GrammarFault::misplaced(token.place))
    }
}

// Reads a number.
fn numeral(text: &[u8], pos: usize) -> Result<(u32, Token), GrammarFault>
    ensures { result ≡ numeral_at text.now pos }
{
    let token = next(text, pos)?;
    let What::Number(value) = token.what else {
        return Err(GrammarFault::misplaced(token.place));
    };
    Ok((value, token))
}

// The kind of object that the token is the keyword of.
fn heading_of(text: &[u8], token: Token) -> Option<Kind>
    ensures { result ≡ heading text.now token }
{
    // No `find` over pairs of a keyword and its kind: it was tried, and its clause, which speaks of runs of an iterator,
    // did not give this one.
    let fits_word = |word| fits(text, Slot::Word(word), token);
    if fits_word(Word::Resource) {
        Some(Kind::Resource)
    } else if fits_word(Word::Event) {
        Some(Kind::Event)
    } else if fits_word(Word::Task) {
        Some(Kind::Task)
    } else {
        None
    }
}

// Reads the head of an object, or the end of the text.
fn object(text: &[u8], pos: usize) -> Result<Step, GrammarFault>
    ensures { result ≡ object_at text.now pos }
{
    let first = next(text, pos)?;
    if fits(text, Slot::Mark(Mark::Close), first) {
        let end = follow(text, first.end, &[Slot::Mark(Mark::Semicolon), Slot::End])?;
        return Ok(Step::new(Item::End, State::Closed, end));
    }
    let kind = heading_of(text, first).ok_or(GrammarFault::misplaced(first.place))?;
    let name = name(text, first.end)?;
    Ok(Step::new(Item::Declares(kind, name), State::Declared(kind), name.end))
}

// Reads a reference of a task, or the end of the task.
fn attribute(text: &[u8], pos: usize) -> Result<Step, GrammarFault>
    ensures { result ≡ attribute_at text.now pos }
{
    let first = next(text, pos)?;
    if fits(text, Slot::Mark(Mark::Close), first) {
        return Ok(Step::new(Item::Closes, State::Closed, first.end));
    }
    let kind = heading_of(text, first)
        .filter(|kind| *kind != Kind::Task)
        .ok_or(GrammarFault::misplaced(first.place))?;
    let after = expect(text, first.end, Slot::Mark(Mark::Equals))?;
    let name = name(text, after)?;
    Ok(Step::new(Item::Refers(kind, name), State::Referred, name.end))
}

// Reads on from a state up to the next token that is judged.
pub fn next_item(text: &[u8], state: State, pos: usize) -> Result<Step, GrammarFault>
    ensures { result ≡ item_at text.now state pos }
{
    let at = follow(text, pos, slots_after(state))?;
    // Two arms of one shape: one function over the item, as a closure, was tried, and what the two arms owe was not proved
    // from its clause, for each rule that the closure's answers keep.
    match state {
        State::Declared(Kind::Task) => {
            let (value, token) = numeral(text, at)?;
            Ok(Step::new(Item::Priority(value, token), State::Prioritized, token.end))
        }
        State::Prioritized => {
            let (value, token) = numeral(text, at)?;
            Ok(Step::new(Item::Activation(value, token), State::Activated, token.end))
        }
        State::Activated | State::Referred => attribute(text, at),
        State::Start | State::Declared(_) | State::Closed => object(text, at),
    }
}
