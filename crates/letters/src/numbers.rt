// Numbers.
ghost use Rattle.std.specs.Prelude.{◌≡◌, ◌+◌, ◌-◌, ◌<◌, ◌≤◌, length, IfSome};
ghost use Rattle.letters.specs.Tokens.{digits};

use crate::limits::MOST_DIGITS;

// The number of a first digit and the digits after it, and how many they are: none where they are more than nine.
pub(crate) fn number(digit: u8, text: &[u8]) -> Option<(u32, usize)>
    requires { (48 ≤ digit) × (digit < 58) }
    ensures value { result ≡ digits 1 (digit - 48) text.now }
    ensures bound { IfSome result (λ p. p.1 ≤ 1 + length text.now) }
{
    // A loop that counts, since it may end with none in the middle. The run measured first by `take_while` and then summed was
    // tried: it is proved, and no shorter.
    let mut rest = text;
    let mut count = 1;
    let mut value = u32::from(digit - b'0');
    while let [first, after @ ..] = rest
        && first.is_ascii_digit()
    {
        if count == MOST_DIGITS {
            return None;
        }
        value = value * 10 + u32::from(*first - b'0');
        count += 1;
        rest = after;
    }
    Some((value, count))
}
