// Strings.
ghost use Rattle.std.specs.Prelude.{◌≡◌, ◌+◌, ◌^◌, ◌<◌, ◌≤◌, length, drop};
ghost use Rattle.std.specs.List.{prefix_len};
ghost use Rattle.letters.specs.Bytes.{in_string as inside};
ghost use Rattle.letters.specs.Tokens.{string_at};

use crate::blanks::begins;
use crate::bytes::in_string;
use crate::fault::LettersFault;
use crate::limits::LONGEST_WORD;
use crate::slices::rest_from;
use crate::token::{Token, What};

// How many bytes the text begins with that a string may hold. One function for this and `name_len`, with the test as a
// closure, was tried: its clause, for each rule that the closure's answers keep, was not proved.
fn string_len(text: &[u8]) -> usize
    ensures count { result ≡ prefix_len inside text.now }
    ensures bound { result ≤ length text.now }
{
    text.iter().take_while(|b| in_string(**b)).count()
}

// A string whose opening quote stands at `place`, before `text`.
pub(crate) fn string(place: usize, text: &[u8]) -> Result<Token, LettersFault>
    requires { place + 1 + length text.now < 2 ^ 64 }
    ensures { result ≡ string_at place (prefix_len inside text.now) (drop (prefix_len inside text.now) text.now) }
{
    let count = string_len(text);
    if count <= LONGEST_WORD && begins(rest_from(text, count), b'"') {
        Ok(Token::new(What::Quoted, place, count + 2))
    } else {
        Err(LettersFault::no_token(place))
    }
}
