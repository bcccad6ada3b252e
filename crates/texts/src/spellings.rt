// The record that spells a call.
ghost use Rattle.std.specs.Prelude.{◌≡◌, ◌+◌, ◌≤◌, true, false, ◌++◌, MatchOption, OnSome};
ghost use Rattle.texts.specs.Fronts.{text_of, Puts, hex};
ghost use Rattle.texts.specs.Lines.{field};
ghost use Rattle.texts.specs.Verbs.{word_of};
ghost use Rattle.texts.specs.declared.spellings.Unwritten.TheVariants.{NoMemory};
ghost use Rattle.texts.specs.Spelling.{vector_after, numbered, is_short, has_record, record_of, FitsVector, Fits, Spelt, ReadsBack};

use crate::fronts::Front;
use crate::verbs::Verb;
use machine::Call;
use std::alloc::AllocError;

// Why a call was not written: it has no record, or memory is wanting.
#[derive(Clone, Copy, PartialEq, Debug)]
pub enum Unwritten {
    NoRecord,
    NoMemory,
}

impl From<AllocError> for Unwritten {
    ghost from_gives = { λ _ why. why ≡ NoMemory };

    fn from(_: AllocError) -> Unwritten {
        Unwritten::NoMemory
    }
}

impl Front {
    // Puts a verb and its comma before the text.
    fn put_verb(&mut self, verb: Verb)
        requires { 14 ≤ self.old.start }
        ensures { Puts 14 (field (word_of verb)) self.old self.new }
    {
        self.put(b',');
        self.put_all(verb.word());
    }

    // Puts a comma and a vector, where there is one, before the text.
    fn put_vector_after(&mut self, v: Option<u64>)
        requires { 17 ≤ self.old.start }
        ensures puts { Puts 17 (λ text. vector_after v ++ text) self.old self.new }
        ensures fits { FitsVector v }
    {
        if let Some(x) = v {
            self.put_hex(x);
            self.put(b',');
        }
    }
}

// The text of a verb and a vector.
fn vector_text(verb: Verb, v: u64) -> Front
    ensures { text_of result ≡ field (word_of verb) (hex 16 v) }
{
    let mut text = Front::empty();
    text.put_hex(v);
    text.put_verb(verb);
    text
}

// The text of a verb and a number, with a vector where there is one; none for a number of more than 3 digits.
fn number_text(verb: Verb, n: u16, v: Option<u64>) -> Option<Front>
    ensures means { MatchOption result (is_short n ≡ false) (λ f. (is_short n ≡ true) × (text_of f ≡ numbered verb n v)) }
    ensures fits { OnSome result (FitsVector v) }
{
    if n > 999 {
        return None;
    }
    let mut text = Front::empty();
    text.put_vector_after(v);
    text.put_decimal(u64::from(n));
    text.put_verb(verb);
    Some(text)
}

// The text of a verb alone.
fn bare_text(verb: Verb) -> Front
    ensures { text_of result ≡ word_of verb }
{
    let mut text = Front::empty();
    text.put_all(verb.word());
    text
}

// The text of the call's record, if it has one.
fn spell(call: &Call) -> Option<Front>
    ensures means { MatchOption result (has_record call.now ≡ false) (λ f. (has_record call.now ≡ true) × (text_of f ≡ record_of call.now)) }
    ensures fits { OnSome result (Fits call.now) }
{
    match call {
        Call::Install(_) => None,
        Call::Release(v) => Some(vector_text(Verb::Releases, *v)),
        Call::Lock(n) => number_text(Verb::Locks, *n, None),
        Call::Unlock(n) => number_text(Verb::Unlocks, *n, None),
        Call::Exit => Some(bare_text(Verb::Exits)),
        Call::Signal(n, v) => number_text(Verb::Signals, *n, *v),
        Call::SignalRelease(n, v) => number_text(Verb::SignalReleases, *n, *v),
        Call::Test(n) => number_text(Verb::Tests, *n, None),
    }
}

// Adds the record of a call to the output, without a line end; nothing where it has none. The record reads
// back as the call, and a call has none only where nothing spells it.
#[tactic(auto, using(crate::proofs::Backs::law))]
pub fn push_call(out: &mut Vec<u8>, call: &Call) -> Result<(), Unwritten>
    ensures writes { Spelt call.now out.old result out.new }
    ensures law { ReadsBack call.now }
{
    let text = spell(call).ok_or(Unwritten::NoRecord)?;
    Ok(text.add_to(out)?)
}
