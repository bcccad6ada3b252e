// Why the tokens of a text are refused.
ghost use Rattle.std.specs.Prelude.{◌≡◌, Some};
ghost use Rattle.grammar.specs.Faults.{raised, misplaced, explanation};

use letters::fault::{LettersCause, LettersFault};
use std::error::Error;
use std::fmt::{self, Display, Formatter, Write};

#[derive(Clone, Copy, PartialEq, Debug)]
pub enum GrammarCause {
    Letters(LettersCause),
    // The token is not allowed here, or the text ended.
    Misplaced,
}

impl GrammarCause {
    // What was wrong, in a few words.
    pub fn explain(self) -> &'static str
        ensures { result.now ≡ explanation self }
    {
        match self {
            GrammarCause::Letters(cause) => cause.explain(),
            GrammarCause::Misplaced => "this may not stand here, or the text ended",
        }
    }
}

impl Display for GrammarCause {
    ghost output = { λ cause. Some (explanation cause) };

    fn fmt<W: Write>(&self, f: &mut Formatter<W>) -> fmt::Result {
        f.write_str(self.explain())
    }
}

impl Error for GrammarCause {}

// A cause, and the byte of the text where it was found. No generic struct of all layers: see `LettersFault`.
#[derive(Clone, Copy, PartialEq, Debug)]
pub struct GrammarFault {
    pub cause: GrammarCause,
    pub place: usize,
}

impl From<LettersFault> for GrammarFault {
    ghost from_gives = { λ x y. y ≡ raised x };

    fn from(fault: LettersFault) -> GrammarFault {
        GrammarFault {
            cause: GrammarCause::Letters(fault.cause),
            place: fault.place,
        }
    }
}

impl GrammarFault {
    // A token may not stand where it stands.
    pub fn misplaced(place: usize) -> GrammarFault
        ensures { result ≡ misplaced place }
    {
        GrammarFault {
            cause: GrammarCause::Misplaced,
            place,
        }
    }
}
