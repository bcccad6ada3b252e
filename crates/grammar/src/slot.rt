// Slots: what may stand at one place of a text.
ghost use Rattle.std.specs.Prelude.{◌≡◌};
ghost use Rattle.grammar.specs.Slots.{admits, expected, followed};

use crate::fault::GrammarFault;
use crate::word::Word;
use letters::lexer::next;
use letters::token::{Mark, Token, What, bytes_of};

#[derive(Clone, Copy, PartialEq, Debug)]
pub enum Slot {
    Word(Word),
    Mark(Mark),
    AnyName,
    Version,
    End,
}

// May the token stand at the slot?
pub(crate) fn fits(text: &[u8], slot: Slot, token: Token) -> bool
    ensures { result ≡ admits text.now slot token }
{
    match (slot, token.what) {
        (Slot::Word(word), What::Name) => bytes_of(text, token) == word.spelling(),
        (Slot::Mark(mark), What::Mark(found)) => mark == found,
        (Slot::AnyName, What::Name) => true,
        (Slot::Version, What::Quoted) => bytes_of(text, token) == b"\"2.5\"".as_slice(),
        (Slot::End, What::End) => true,
        _ => false,
    }
}

// Reads a token that has to stand at the slot, and says where the text goes on.
pub(crate) fn expect(text: &[u8], pos: usize, slot: Slot) -> Result<usize, GrammarFault>
    ensures { result ≡ expected text.now slot pos }
{
    let token = next(text, pos)?;
    if fits(text, slot, token) {
        Ok(token.end)
    } else {
        Err(GrammarFault::misplaced(token.place))
    }
}

// Reads tokens that have to stand at the slots, one after another, and says where the text goes on.
pub(crate) fn follow(text: &[u8], pos: usize, slots: &[Slot]) -> Result<usize, GrammarFault>
    ensures { result ≡ followed text.now slots.now pos }
{
    let mut at = pos;
    for slot in slots {
        at = expect(text, at, *slot)?;
    }
    Ok(at)
}
