// Tokens: plain data, which hold no part of the text.
ghost use Rattle.std.specs.Prelude.{◌≡◌, ◌+◌, ◌^◌, ◌<◌};
ghost use Rattle.letters.specs.Tokens.{bytes_of as token_bytes, mark_of, spanning};

use crate::slices::rest_from;

// The four marks: { } = ;
#[derive(Clone, Copy, PartialEq, Debug)]
pub enum Mark {
    Open,
    Close,
    Equals,
    Semicolon,
}

impl Mark {
    // The mark that a character is. No TryFrom: its error could say no more than none.
    pub(crate) fn of(c: char) -> Option<Mark>
        ensures { result ≡ mark_of c }
    {
        match c {
            '{' => Some(Mark::Open),
            '}' => Some(Mark::Close),
            '=' => Some(Mark::Equals),
            ';' => Some(Mark::Semicolon),
            _ => None,
        }
    }
}

#[derive(Clone, Copy, PartialEq, Debug)]
pub enum What {
    Name,
    Number(u32),
    Quoted,
    Mark(Mark),
    // The end of the text.
    End,
}

// What stands in the text from the byte `place` up to the byte `end`.
#[derive(Clone, Copy, PartialEq, Debug)]
pub struct Token {
    pub what: What,
    pub place: usize,
    pub end: usize,
}

impl Token {
    // A token of `count` bytes from `place` on.
    pub(crate) fn new(what: What, place: usize, count: usize) -> Token
        requires { place + count < 2 ^ 64 }
        ensures { result ≡ spanning what place count }
    {
        Token {
            what,
            place,
            end: place + count,
        }
    }
}

// The bytes of a token.
pub fn bytes_of(text: &[u8], token: Token) -> &[u8]
    ensures { result.now ≡ token_bytes text.now token }
{
    let rest = rest_from(text, token.place);
    let count = token.end.saturating_sub(token.place);
    rest.get(..count).unwrap_or(rest)
}
