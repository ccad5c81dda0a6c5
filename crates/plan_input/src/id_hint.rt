//! A hint for a text with a hexadecimal id. Ids are decimal, but etcdctl's tables and etcd's logs show them in
//! hexadecimal.
ghost use Rattle.std.specs.Prelude.{◌≡◌, ◌≤◌, length, option_map};
ghost use Rattle.std.specs.List.{position_or_len};
ghost use Rattle.plan_input.specs.HexadecimalId.{from_bracket, hexadecimal_id_in, id_hint, is_bracket, is_hexadecimal_id};

use crate::short_token::ShortToken;
use ascii_text::number::has_digits_alone;
use std::fmt;

/// How the hexadecimal id of a text is written in decimal. It is printed after an error, and is empty if the text has no
/// such id.
#[derive(Clone, Copy, Debug, PartialEq, Eq)]
pub struct IdHint {
    /// The first hexadecimal id.
    id: Option<ShortToken>,
}

impl IdHint {
    /// No hint.
    pub const NONE: IdHint = IdHint { id: None };

    /// The hint for a text, by its first run of 13 to 16 hexadecimal digits with a letter among them: etcd's ids are
    /// random numbers below 2^64, which nearly always have as many.
    pub fn new(text: &[u8]) -> IdHint
        ensures { result ≡ id_hint text.now }
    {
        IdHint {
            id: hexadecimal_id(text).map(ShortToken::new),
        }
    }
}

impl fmt::Display for IdHint {
    ghost use Rattle.std.specs.Prelude.{Some};
    ghost use Rattle.plan_input.specs.HexadecimalId.{id_hint_text};

    ghost output = { λ hint. Some (id_hint_text hint) };

    /// A shell command that prints the id, or nothing.
    fn fmt<W: fmt::Write>(&self, f: &mut fmt::Formatter<W>) -> fmt::Result {
        if let Some(id) = self.id {
            write!(f, "; ids are decimal: printf '%u\\n' 0x{id}")?;
        }
        Ok(())
    }
}

// The first hexadecimal id of a text.
fn hexadecimal_id(text: &[u8]) -> Option<&[u8]>
    ensures { option_map (λ id. id.now) result ≡ hexadecimal_id_in text.now }
{
    text.split(|byte| !byte.is_ascii_hexdigit())
        .find(|run| is_hexadecimal_id(run))
}

// Whether a run of hexadecimal digits is an id.
fn is_hexadecimal_id(run: &[u8]) -> bool
    ensures { result ≡ is_hexadecimal_id run.now }
{
    run.len() >= 13 && run.len() <= 16 && !has_digits_alone(run)
}

/// A text from its first bracket on. In JSON the ids of members are in a list, and other ids, as that of the cluster, are
/// before it.
pub(crate) fn from_bracket(text: &[u8]) -> &[u8]
    ensures { result.now ≡ from_bracket text.now }
{
    &text[bracket_at(text)..]
}

// The position of the first bracket, or the length.
fn bracket_at(text: &[u8]) -> usize
    ensures position { result ≡ position_or_len is_bracket text.now }
    ensures within { result ≤ length text.now }
{
    text.iter().take_while(|byte| !is_bracket(**byte)).count()
}

fn is_bracket(byte: u8) -> bool
    ensures { result ≡ is_bracket byte }
{
    byte == b'['
}
