//! A token that an error names.
ghost use Rattle.std.specs.Prelude.{◌≡◌};
ghost use Rattle.plan_input.specs.ShortToken.{short_token, visible};

use std::fmt;

/// How many bytes of a token are kept.
const LONGEST: usize = 24;

/// The first 24 bytes of a token, for an error that outlives the text.
#[derive(Clone, Copy, Debug, PartialEq, Eq)]
pub struct ShortToken {
    /// The bytes that are kept, with spaces after them.
    bytes: [u8; 24],
    /// The length of the whole token.
    len: usize,
}

impl ShortToken {
    /// What is kept of a token.
    pub fn new(token: &[u8]) -> ShortToken
        ensures { result ≡ short_token token.now }
    {
        let len = token.len();
        let kept = len.min(LONGEST);
        let mut bytes = [b' '; 24];
        bytes[..kept].copy_from_slice(&token[..kept]);
        ShortToken { bytes, len }
    }
}

impl fmt::Display for ShortToken {
    ghost use Rattle.std.specs.Prelude.{Some};
    ghost use Rattle.plan_input.specs.ShortToken.{short_token_text};

    ghost output = { λ token. Some (short_token_text token) };

    /// The token, with `?` for each byte that is not a visible character of ASCII, and `..` where it was cut.
    fn fmt<W: fmt::Write>(&self, f: &mut fmt::Formatter<W>) -> fmt::Result {
        for byte in &self.bytes[..self.len.min(LONGEST)] {
            f.write_char(visible(*byte))?;
        }
        if self.len > LONGEST {
            f.write_str("..")?;
        }
        Ok(())
    }
}

// The character that shows a byte: itself if it is a visible one of ASCII, or else `?`.
fn visible(byte: u8) -> char
    ensures { result ≡ visible byte }
{
    if byte.is_ascii_graphic() {
        char::from(byte)
    } else {
        '?'
    }
}
