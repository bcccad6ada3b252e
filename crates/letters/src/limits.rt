// The limits of a text and of its tokens.

// The most bytes of a text.
pub(crate) const LONGEST_TEXT: usize = 32768;

// The most bytes of a name, and of a string between its quotes.
pub(crate) const LONGEST_WORD: usize = 32;

// The most digits of a number.
pub(crate) const MOST_DIGITS: usize = 9;
