// Blanks and comments.
ghost use Rattle.std.specs.Prelude.{◌≡◌, ◌<◌, ◌≤◌, true, false, length};
ghost use Rattle.letters.specs.Blanks.{blanks, begins as begins_with, skip};

use crate::bytes::is_blank;

// Does the text begin with this byte?
pub(crate) fn begins(text: &[u8], byte: u8) -> bool
    ensures value { result ≡ begins_with byte text.now }
    ensures some { result ≡ true → 0 < length text.now }
{
    text.first() == Some(&byte)
}

// Whether the next byte is in a comment, where this one is a blank or of a comment; none where it is neither.
fn skips(comment: bool, byte: u8, after: &[u8]) -> Option<bool>
    ensures { result ≡ skip comment byte after.now }
{
    if comment {
        Some(byte != b'\n')
    } else if byte == b'/' && begins(after, b'/') {
        Some(true)
    } else {
        is_blank(byte).then_some(false)
    }
}

// How many bytes of blanks and comments the text begins with.
pub(crate) fn blanks_len(text: &[u8]) -> usize
    ensures count { result ≡ blanks false text.now }
    ensures bound { result ≤ length text.now }
{
    // A loop: whether a byte is skipped may depend on the one after it.
    let mut rest = text;
    let mut comment = false;
    while let [first, after @ ..] = rest
        && let Some(next) = skips(comment, *first, after)
    {
        comment = next;
        rest = after;
    }
    text.len() - rest.len()
}
