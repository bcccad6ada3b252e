// The call that a record spells. The functions marked `inline` cost a third of a record's instructions otherwise: a call
// has room for a plan, which is cleared and copied where one function hands it to another. `Some(Call::Lock(n?))` and
// the like stand for the same reason: by `map` and `then_some` a whole run took nearly twice the instructions.
ghost use Rattle.std.specs.Prelude.{◌≡◌, [], Some, MatchOption};
ghost use Rattle.texts.specs.Pieces.{pieces};
ghost use Rattle.texts.specs.Requests.{asked_bare, asked_one, asked_two, asked_with, asked, Asks};
ghost use Rattle.texts.specs.Spells.{Spells, AsksWhatItSpells};

use crate::digits::{read_number, read_vector};
use crate::pieces::cut_at;
use crate::verbs::Verb;
use machine::Call;

// The call of a verb alone. This function and the next two are the definition's cases by the number of fields.
fn read_bare(verb: Verb) -> Option<Call>
    ensures { result ≡ asked_bare verb }
{
    match verb {
        Verb::Exits => Some(Call::Exit),
        _ => None,
    }
}

// The call of a verb with one field.
#[inline(always)]
fn read_one(verb: Verb, field: &[u8]) -> Option<Call>
    ensures { result ≡ asked_one verb field.now }
{
    match verb {
        Verb::Releases => Some(Call::Release(read_vector(field)?)),
        Verb::Locks => Some(Call::Lock(read_number(field)?)),
        Verb::Unlocks => Some(Call::Unlock(read_number(field)?)),
        Verb::Exits => None,
        Verb::Signals => Some(Call::Signal(read_number(field)?, None)),
        Verb::SignalReleases => Some(Call::SignalRelease(read_number(field)?, None)),
        Verb::Tests => Some(Call::Test(read_number(field)?)),
    }
}

// The call of a verb with two fields.
#[inline(always)]
fn read_two(verb: Verb, first: &[u8], second: &[u8]) -> Option<Call>
    ensures { result ≡ asked_two verb first.now second.now }
{
    match verb {
        Verb::Signals => Some(Call::Signal(read_number(first)?, Some(read_vector(second)?))),
        Verb::SignalReleases => {
            Some(Call::SignalRelease(read_number(first)?, Some(read_vector(second)?)))
        }
        _ => None,
    }
}

// The call of a verb with at least one field.
#[inline(always)]
fn read_fields(verb: Verb, fields: &[u8]) -> Option<Call>
    ensures { result ≡ asked_with verb (pieces 44 fields.now) }
{
    match cut_at(fields, b',') {
        (first, None) => read_one(verb, first),
        (first, Some(rest)) => match cut_at(rest, b',') {
            (second, None) => read_two(verb, first, second),
            (_, Some(_)) => None,
        },
    }
}

// The word of a record, and its fields where there are any. What the record asks for by them is what it spells. Without
// this function, whose clauses tie the fields to the call, `read_call` was tried, and was not proved.
fn cut_word(text: &[u8]) -> (&[u8], Option<&[u8]>)
    ensures asks { MatchOption result.1 (Asks text.now result.0.now []) (λ fields. Asks text.now result.0.now (pieces 44 fields.now)) }
    ensures spells { AsksWhatItSpells text.now }
{
    cut_at(text, b',')
}

// The call that a record spells; none where it spells none.
pub fn read_call(text: &[u8]) -> Option<Call>
    ensures means { result ≡ asked text.now }
    ensures spells { (q : Call) → (result ≡ Some q → Spells q text.now) × (Spells q text.now → result ≡ Some q) }
{
    let (word, more) = cut_word(text);
    let verb = Verb::read(word)?;
    match more {
        Some(fields) => read_fields(verb, fields),
        None => read_bare(verb),
    }
}
