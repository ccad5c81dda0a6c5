//! Numbers in a text: ids and indexes, which are decimal and have 64 bits.
ghost use Rattle.std.specs.Prelude.{◌≡◌};
ghost use Rattle.std.specs.Char.{is_ascii_digit};
ghost use Rattle.std.specs.List.{list_all};
ghost use Rattle.ascii_text.specs.Number.{number_in};

/// Parses a number as Go's `strconv.ParseUint` does in base 10: one or more decimal digits, leading zeros allowed, with
/// a value below 2^64. Anything else is `None`. So `7` and `007` are 7, and `+7`, `7 ` and `18446744073709551616` are
/// not numbers.
pub fn read_number(digits: &[u8]) -> Option<u64>
    ensures { result ≡ number_in digits.now }
{
    if digits.is_empty() {
        return None;
    }
    let mut number: u64 = 0;
    for digit in digits {
        if !digit.is_ascii_digit() {
            return None;
        }
        number = number
            .checked_mul(10)?
            .checked_add(u64::from(*digit - b'0'))?;
    }
    Some(number)
}

/// Whether each byte is a decimal digit.
pub fn has_digits_alone(text: &[u8]) -> bool
    ensures { result ≡ list_all is_ascii_digit text.now }
{
    text.iter().all(|byte| byte.is_ascii_digit())
}
