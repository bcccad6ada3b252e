// The kinds of bytes.
ghost use Rattle.std.specs.Prelude.{◌≡◌};
ghost use Rattle.letters.specs.Bytes.{name_start, name_byte, is_blank as blank_byte, in_string as string_byte};

// May a name begin with this byte?
pub(crate) fn starts_name(b: u8) -> bool
    ensures { result ≡ name_start b }
{
    b.is_ascii_alphabetic() || b == b'_'
}

// May the byte stand in a name after the first?
pub(crate) fn goes_on_name(b: u8) -> bool
    ensures { result ≡ name_byte b }
{
    starts_name(b) || b.is_ascii_digit()
}

// Space, tab, carriage return and line feed.
pub(crate) fn is_blank(b: u8) -> bool
    ensures { result ≡ blank_byte b }
{
    matches!(b, b' ' | b'\t' | b'\r' | b'\n')
}

// May the byte stand between the quotes of a string?
pub(crate) fn in_string(b: u8) -> bool
    ensures { result ≡ string_byte b }
{
    !matches!(b, b'"' | b'\n')
}
