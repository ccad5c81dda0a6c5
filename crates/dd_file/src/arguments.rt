//! The arguments of a directive: a key, and after `=` its values. The grammar is own, and stricter than datadriven's.
//!
//! ```text
//! auto                the key auto, and no value
//! auto=true           one value
//! auto=               one value, which is empty
//! cfg=(1, 2 3)        two values: 1, and 2 3
//! cfg=()              no value
//! cfg=(1,)            two values, the second of them empty
//! cfg=(1              not valid: the list is not closed
//! cfg=(1)(2)          not valid: the token does not end with the list
//! cfg=f(1)            not valid: a plain value has no parentheses
//! ```
ghost use Rattle.std.specs.Prelude.{◌≡◌, ◌<◌, ◌≤◌, length, IfSome};
ghost use Rattle.std.specs.List.{prefix_len};
ghost use Rattle.dd_file.specs.DirectiveLine.{is_key_byte, is_plain_byte, ends_token, listed_at, values_at, after_key, argument_at};

use crate::values::{Values, ValuesKind};
use ascii_text::position::find_far_byte;
use ascii_text::white_space::is_space;
use std::marker::Model;

/// Whether a key may contain the byte: an ASCII letter, a digit, or one of `-_/,.`.
fn is_key_byte(b: u8) -> bool
    ensures { result ≡ is_key_byte b }
{
    b.is_ascii_alphanumeric() || matches!(b, b'-' | b'_' | b'/' | b',' | b'.')
}

/// The length of the longest prefix of key bytes.
pub(crate) fn key_len(text: &[u8]) -> usize
    ensures len { result ≡ prefix_len is_key_byte text.now }
    ensures within { result ≤ length text.now }
{
    text.iter().take_while(|b| is_key_byte(**b)).count()
}

/// The length of the longest prefix of bytes that a plain value may contain.
fn plain_len(text: &[u8]) -> usize
    ensures len { result ≡ prefix_len is_plain_byte text.now }
    ensures within { result ≤ length text.now }
{
    text.iter().take_while(|b| is_plain_byte(**b)).count()
}

/// Whether a plain value, one that is not a list, may contain the byte: any but white space and parentheses.
fn is_plain_byte(b: u8) -> bool
    ensures { result ≡ is_plain_byte b }
{
    !(is_space(b) || b == b'(' || b == b')')
}

/// Whether a token ends before this text: it is empty or begins with white space.
pub(crate) fn ends_token(text: &[u8]) -> bool
    ensures { result ≡ ends_token text.now }
{
    match text.first() {
        Some(b) => is_space(*b),
        None => true,
    }
}

/// Values that a text begins with, and the text after them.
#[derive(Drop)]
struct LeadingValues<'a> {
    values: Values<'a>,
    rest: &'a [u8],
}

impl<'a> Model for LeadingValues<'a> {
    ghost use Rattle.std.specs.Prelude.{List, ℕ};
    ghost use Rattle.dd_file.specs.DirectiveLine.{Leading, leading};

    ghost Value = { Leading (List (List ℕ)) };

    ghost view = { λ a. leading a.values a.rest.now };
}

/// The values of a list, after its opening parenthesis. `None` if it is not closed. White space between the parentheses
/// does not end the token.
fn listed_at(text: &[u8]) -> Option<LeadingValues<'_>>
    ensures values { result ≡ listed_at text.now }
    ensures within { IfSome result (λ found. length found.rest ≤ length text.now) }
{
    let (inside, closed) = text.split_at(find_far_byte(text, b')'));
    let (_, rest) = closed.split_first()?;
    Some(LeadingValues {
        values: Values::listed(inside),
        rest,
    })
}

/// The values that a text after `=` begins with: a list in parentheses, or one plain value.
fn values_at(text: &[u8]) -> Option<LeadingValues<'_>>
    ensures values { result ≡ values_at text.now }
    ensures within { IfSome result (λ found. length found.rest ≤ length text.now) }
{
    if let Some((b'(', inside)) = text.split_first() {
        return listed_at(inside);
    }
    let (plain, rest) = text.split_at(plain_len(text));
    Some(LeadingValues {
        values: Values {
            text: plain,
            kind: ValuesKind::Plain,
        },
        rest,
    })
}

/// The argument that a text begins with, and the text after it.
#[derive(Drop)]
pub(crate) struct LeadingArgument<'a> {
    pub(crate) key: &'a [u8],
    pub(crate) values: Values<'a>,
    pub(crate) rest: &'a [u8],
}

impl<'a> Model for LeadingArgument<'a> {
    ghost use Rattle.dd_file.specs.DirectiveLine.{ArgumentText, Leading, leading, with_key};

    ghost Value = { Leading ArgumentText };

    ghost view = { λ a. leading (with_key a.key.now a.values) a.rest.now };
}

/// The argument with this key, and the text after it: `=` and values follow the key, or there are none.
fn after_key<'a>(key: &'a [u8], text: &'a [u8]) -> Option<LeadingArgument<'a>>
    ensures argument { result ≡ after_key key.now text.now }
    ensures within { IfSome result (λ found. length found.rest ≤ length text.now) }
{
    if let Some((b'=', text)) = text.split_first() {
        let LeadingValues { values, rest } = values_at(text)?;
        return Some(LeadingArgument { key, values, rest });
    }
    Some(LeadingArgument {
        key,
        values: Values {
            text,
            kind: ValuesKind::Nothing,
        },
        rest: text,
    })
}

/// The argument that a text begins with: a key alone, or a key, `=` and values. `None` if there is none, or it is not
/// the whole token.
pub(crate) fn argument_at(text: &[u8]) -> Option<LeadingArgument<'_>>
    ensures argument { result ≡ argument_at text.now }
    ensures shorter { IfSome result (λ found. length found.rest < length text.now) }
{
    let (key, rest) = text.split_at(key_len(text));
    if key.is_empty() {
        return None;
    }
    let found = after_key(key, rest)?;
    if !ends_token(found.rest) {
        return None;
    }
    Some(found)
}
