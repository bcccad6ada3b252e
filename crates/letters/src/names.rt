// Names.
ghost use Rattle.std.specs.Prelude.{◌≡◌, ◌+◌, ◌^◌, ◌<◌, ◌≤◌, length};
ghost use Rattle.std.specs.List.{prefix_len};
ghost use Rattle.letters.specs.Bytes.{name_byte};
ghost use Rattle.letters.specs.Tokens.{name_at};

use crate::bytes::goes_on_name;
use crate::fault::LettersFault;
use crate::limits::LONGEST_WORD;
use crate::token::{Token, What};

// How many bytes the text begins with that go on a name.
pub(crate) fn name_len(text: &[u8]) -> usize
    ensures count { result ≡ prefix_len name_byte text.now }
    ensures bound { result ≤ length text.now }
{
    text.iter().take_while(|b| goes_on_name(**b)).count()
}

// A name of `count` bytes from `place` on.
pub(crate) fn name(place: usize, count: usize) -> Result<Token, LettersFault>
    requires { place + count < 2 ^ 64 }
    ensures { result ≡ name_at place count }
{
    if count > LONGEST_WORD {
        return Err(LettersFault::no_token(place));
    }
    Ok(Token::new(What::Name, place, count))
}
