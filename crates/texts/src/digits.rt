// Numbers read from digits.
ghost use Rattle.std.specs.Prelude.{◌≡◌, ◌^◌, ◌<◌, ◌≤◌, SomeIff};
ghost use Rattle.std.specs.Char.{digit_value};
ghost use Rattle.texts.specs.Digits.{number, number_field, vector_field};

// What a byte is worth as a digit; none where it is no digit below the radix.
fn digit(b: u8, radix: u32) -> Option<u32>
    requires { (2 ≤ radix) × (radix ≤ 36) }
    ensures { SomeIff result (digit_value b < radix) (digit_value b) }
{
    char::from(b).to_digit(radix)
}

// The number that a field of 1 to `most` digits spells; none where it has anything else.
fn read_digits(field: &[u8], radix: u32, most: usize) -> Option<u64>
    requires radix { (2 ≤ radix) × (radix ≤ 36) }
    requires room { radix ^ most ≤ 2 ^ 64 }
    ensures { result ≡ number radix most field.now }
{
    if field.is_empty() || field.len() > most {
        return None;
    }
    // A loop: a fold, whose closure would owe that each product fits, reads no plainer.
    let mut value = 0;
    for b in field {
        let worth = digit(*b, radix)?;
        value = value * u64::from(radix) + u64::from(worth);
    }
    Some(value)
}

// The number of a resource or an event: 1 to 3 decimal digits.
pub(crate) fn read_number(field: &[u8]) -> Option<u16>
    ensures { result ≡ number_field field.now }
{
    // Three digits are at most 999.
    read_digits(field, 10, 3).map(|n| n as u16)
}

// A task vector: 1 to 16 hexadecimal digits.
pub(crate) fn read_vector(field: &[u8]) -> Option<u64>
    ensures { result ≡ vector_field field.now }
{
    read_digits(field, 16, 16)
}
