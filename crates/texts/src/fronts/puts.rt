// What is put before a text: bytes, and the digits of numbers.
ghost use Rattle.std.specs.Prelude.{◌≡◌, ◌+◌, ◌<◌, ◌≤◌, [], ◌∷◌, ◌++◌, length, decimal};
ghost use Rattle.std.specs.Char.{digit_char};
ghost use Rattle.texts.specs.Fronts.{text_of, Puts, hex};
ghost use Rattle.texts.specs.Outputs.{Appended};

use crate::fronts::Front;
use itoa::write_digits;
use std::alloc::AllocError;

// The small hexadecimal digit that writes d. `char::from_digit` would give an `Option` that is never `None`.
fn hex_digit(d: u8) -> u8
    requires { d < 16 }
    ensures { result ≡ digit_char d }
{
    b"0123456789abcdef"[usize::from(d)]
}

impl Front {
    // The empty text, written out: a struct with a ghost field derives no `Default`.
    pub(crate) fn empty() -> Front
        ensures text { text_of result ≡ [] }
        ensures room { result.start ≡ 128 }
    {
        Front {
            bytes: [0; 128],
            start: 128,
        }
    }

    // Puts one byte before the text.
    pub(crate) fn put(&mut self, b: u8)
        requires { 1 ≤ self.old.start }
        ensures { Puts 1 (λ text. b ∷ text) self.old self.new }
    {
        self.start -= 1;
        self.bytes[self.start] = b;
    }

    // Puts bytes before the text: inline, since most texts are literals.
    #[inline(always)]
    pub(crate) fn put_all(&mut self, bytes: &[u8])
        requires { length bytes.now ≤ self.old.start }
        ensures { Puts (length bytes.now) (λ text. bytes.now ++ text) self.old self.new }
    {
        let end = self.start;
        self.start -= bytes.len();
        self.bytes[self.start..end].copy_from_slice(bytes);
    }

    // Puts the decimal digits of n before the text.
    #[tactic(auto, using(crate::proofs::Fronted::length_decimal))]
    pub(crate) fn put_decimal(&mut self, n: u64)
        requires { 20 ≤ self.old.start }
        ensures { Puts 20 (λ text. decimal n ++ text) self.old self.new }
    {
        self.start = write_digits(n, &mut self.bytes, self.start);
    }

    // Puts the last `count` hexadecimal digits of v before the text.
    pub(crate) fn put_digits(&mut self, v: u64, count: u8)
        requires { count ≤ self.old.start }
        ensures { Puts count (λ text. hex count v ++ text) self.old self.new }
    {
        // By `put` for each digit a whole run took 9 % more instructions. The proof names the place. A digit fits a byte.
        let mut left = v;
        let mut at = self.start;
        for _place in 0..count {
            at -= 1;
            self.bytes[at] = hex_digit((left % 16) as u8);
            left /= 16;
        }
        self.start = at;
    }

    // Puts the 16 hexadecimal digits of v before the text.
    pub(crate) fn put_hex(&mut self, v: u64)
        requires { 16 ≤ self.old.start }
        ensures { Puts 16 (λ text. hex 16 v ++ text) self.old self.new }
    {
        self.put_digits(v, 16);
    }

    // Adds the text to a vector, or nothing.
    pub(crate) fn add_to(&self, out: &mut Vec<u8>) -> Result<(), AllocError>
        ensures { Appended out.old (text_of self.now) result out.new }
    {
        out.extend_from_slice(&self.bytes[self.start..])
    }
}
