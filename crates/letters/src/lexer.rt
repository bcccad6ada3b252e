// The next token of a text.
ghost use Rattle.std.specs.Prelude.{◌≡◌, ◌+◌, ◌^◌, ◌<◌, ◌≤◌, length};
ghost use Rattle.letters.specs.Tokens.{measured, head_token, token_at};

use crate::blanks::blanks_len;
use crate::bytes::starts_name;
use crate::fault::{LettersCause, LettersFault};
use crate::limits::LONGEST_TEXT;
use crate::names::{name, name_len};
use crate::numbers::number;
use crate::slices::rest_from;
use crate::strings::string;
use crate::token::{Mark, Token, What};

// Is the text short enough to be read?
pub fn measure(text: &[u8]) -> Result<(), LettersFault>
    ensures { result ≡ measured text.now }
{
    if text.len() > LONGEST_TEXT {
        return Err(LettersFault::new(LettersCause::TooLong, LONGEST_TEXT));
    }
    Ok(())
}

// The token at the head of a text that stands at `place`: its first byte decides its kind.
fn head(text: &[u8], place: usize) -> Result<Token, LettersFault>
    requires { place + length text.now < 2 ^ 64 }
    ensures { result ≡ head_token place text.now }
{
    match text {
        [] => Ok(Token::new(What::End, place, 0)),
        [first, after @ ..] if starts_name(*first) => name(place, 1 + name_len(after)),
        [first, after @ ..] if first.is_ascii_digit() => {
            let (value, count) = number(*first, after).ok_or(LettersFault::no_token(place))?;
            Ok(Token::new(What::Number(value), place, count))
        }
        [b'"', after @ ..] => string(place, after),
        [first, ..] => {
            let mark = Mark::of(char::from(*first)).ok_or(LettersFault::no_token(place))?;
            Ok(Token::new(What::Mark(mark), place, 1))
        }
    }
}

// The next token of the text from `pos` on.
pub fn next(text: &[u8], pos: usize) -> Result<Token, LettersFault>
    ensures { result ≡ token_at text.now pos }
{
    let rest = rest_from(text, pos);
    let skipped = blanks_len(rest);
    head(rest_from(rest, skipped), pos + skipped)
}
