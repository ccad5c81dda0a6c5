//! A list of ids with commas between them, as the value of an option.
ghost use Rattle.std.specs.Prelude.{◌≡◌, option_map, IfOk};
ghost use Rattle.std.specs.Char.{is_ascii_hexdigit};
ghost use Rattle.std.specs.List.{list_all};
ghost use Rattle.conf_session.specs.Parameter.{id_in};
ghost use Rattle.conf_tool.specs.IdList.{ids_listed, is_hexadecimal, hexadecimal_in, hexadecimal_listed};

use ascii_text::number::{has_digits_alone, read_number};
use ascii_text::position::split_at_first;
use quorum_sets::NoMemory;
use std::alloc::Global;

/// The ids of a list: one or more numbers from 1 to 2^64-1, with one comma between each two. They may repeat. `None`
/// for any other text.
pub(crate) fn ids_listed(alloc: Global, text: &[u8]) -> Result<Option<Vec<u64>>, NoMemory>
    ensures { IfOk result (λ read. option_map (λ ids. ids.items) read ≡ ids_listed text.now) }
{
    let mut ids = Vec::new(alloc);
    let mut rest = text;
    loop {
        let (part, after) = split_at_first(rest, b',');
        let Some(id) = read_id(part) else {
            return Ok(None);
        };
        ids.push(id)?;
        let [_, next @ ..] = after else {
            return Ok(Some(ids));
        };
        rest = next;
    }
}

/// The digits of the first part of a list that is not an id, if it is a hexadecimal number.
pub(crate) fn hexadecimal_listed(text: &[u8]) -> Option<&[u8]>
    ensures { option_map (λ digits. digits.now) result ≡ hexadecimal_listed text.now }
{
    let mut rest = text;
    loop {
        let (part, after) = split_at_first(rest, b',');
        if read_id(part).is_none() {
            return hexadecimal_digits(part);
        }
        let [_, next @ ..] = after else {
            return None;
        };
        rest = next;
    }
}

// The digits of a hexadecimal number, which begins with `0x` or has a letter among its digits.
fn hexadecimal_digits(text: &[u8]) -> Option<&[u8]>
    ensures { option_map (λ digits. digits.now) result ≡ hexadecimal_in text.now }
{
    if text.starts_with(b"0x") {
        let digits = &text[2..];
        return if is_hexadecimal(digits) {
            Some(digits)
        } else {
            None
        };
    }
    if is_hexadecimal(text) && !has_digits_alone(text) {
        Some(text)
    } else {
        None
    }
}

// Whether a text is 1 to 16 hexadecimal digits.
fn is_hexadecimal(text: &[u8]) -> bool
    ensures { result ≡ is_hexadecimal text.now }
{
    !text.is_empty() && text.len() <= 16 && has_hexadecimal_digits(text)
}

// Whether each byte is a hexadecimal digit.
fn has_hexadecimal_digits(text: &[u8]) -> bool
    ensures { result ≡ list_all is_ascii_hexdigit text.now }
{
    text.iter().all(|byte| byte.is_ascii_hexdigit())
}

/// The id that a text denotes.
pub(crate) fn read_id(text: &[u8]) -> Option<u64>
    ensures { result ≡ id_in text.now }
{
    match read_number(text) {
        Some(0) | None => None,
        id => id,
    }
}
