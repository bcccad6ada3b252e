// Why a text cannot be taken apart.
ghost use Rattle.std.specs.Prelude.{◌≡◌, Some};
ghost use Rattle.letters.specs.declared.fault.LettersCause.TheVariants as causes;
ghost use Rattle.letters.specs.Tokens.{fault};
ghost use Rattle.letters.specs.Faults.{explanation};

use std::error::Error;
use std::fmt::{self, Display, Formatter, Write};

#[derive(Clone, Copy, PartialEq, Debug)]
pub enum LettersCause {
    // The text has more bytes than the reader takes.
    TooLong,
    // No lawful token begins here.
    NoToken,
}

impl LettersCause {
    // What was wrong, in a few words.
    pub fn explain(self) -> &'static str
        ensures { result.now ≡ explanation self }
    {
        match self {
            LettersCause::TooLong => "the text has more than 32768 bytes",
            LettersCause::NoToken => "no name, number, string or mark begins here",
        }
    }
}

impl Display for LettersCause {
    ghost output = { λ cause. Some (explanation cause) };

    fn fmt<W: Write>(&self, f: &mut Formatter<W>) -> fmt::Result {
        f.write_str(self.explain())
    }
}

impl Error for LettersCause {}

// A cause, and the byte of the text where it was found. Each layer has a struct of its own: `From` between two instances
// of one generic struct would belong to neither of the crates that would write it. So each cause has its own `Display`.
#[derive(Clone, Copy, PartialEq, Debug)]
pub struct LettersFault {
    pub cause: LettersCause,
    pub place: usize,
}

impl LettersFault {
    pub(crate) fn new(cause: LettersCause, place: usize) -> LettersFault
        ensures { result ≡ fault cause place }
    {
        LettersFault { cause, place }
    }

    // No lawful token begins at the place.
    pub(crate) fn no_token(place: usize) -> LettersFault
        ensures { result ≡ fault causes.NoToken place }
    {
        LettersFault::new(LettersCause::NoToken, place)
    }
}
