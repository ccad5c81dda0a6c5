//! White space in a text: tab, newline, vertical tab, form feed, carriage return and space, and no other byte (Go's
//! `unicode.IsSpace` below 128).
ghost use Rattle.std.specs.Prelude.{◌≡◌};
ghost use Rattle.ascii_text.specs.WhiteSpace.{is_space, is_blank, without_leading_space, without_trailing_space, trimmed};

/// Whether the byte is white space: 9 to 13, or 32.
pub fn is_space(byte: u8) -> bool
    ensures { result ≡ is_space byte }
{
    byte <= 32 && matches!(byte, 9..=13 | 32)
}

/// Whether the text is white space alone, or empty. A script's items are separated by blank lines.
pub fn is_blank(text: &[u8]) -> bool
    ensures { result ≡ is_blank text.now }
{
    text.iter().all(|byte| is_space(*byte))
}

/// Drops the white space at the start of a text.
pub fn without_leading_space(text: &[u8]) -> &[u8]
    ensures { result.now ≡ without_leading_space text.now }
{
    let mut rest = text;
    while let Some((first, suffix)) = rest.split_first() {
        if !is_space(*first) {
            return rest;
        }
        rest = suffix;
    }
    rest
}

/// Drops the white space at the end of a text.
pub fn without_trailing_space(text: &[u8]) -> &[u8]
    ensures { result.now ≡ without_trailing_space text.now }
{
    let mut rest = text;
    while let Some((last, prefix)) = rest.split_last() {
        if !is_space(*last) {
            return rest;
        }
        rest = prefix;
    }
    rest
}

/// Drops the white space at both ends of a text.
pub fn trimmed(text: &[u8]) -> &[u8]
    ensures { result.now ≡ trimmed text.now }
{
    without_leading_space(without_trailing_space(text))
}
