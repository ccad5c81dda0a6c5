//! Printed configurations, read: the text that [`write_config`](crate::write_config) appends, which a user copies from
//! an output of the program.
//!
//! ```text
//! voters=(2 3)&&(1 2) learners=(4)   is   Voters:[2 3] VotersOutgoing:[1 2] Learners:[4] LearnersNext:[] AutoLeave:false
//! ```
//!
//! Etcd prints these texts; to read them is own.
ghost use Rattle.std.specs.Prelude.{◌≡◌, Some, None, Err, flat_map, option_map, IfOk};
ghost use Rattle.ascii_text.specs.Tokens.{tokens_in};
ghost use Rattle.conf_change.specs.PrintedConfig as printed;
ghost use Rattle.conf_change.specs.PrintedConfig.{after_token, after_name, auto_leave_at_end, config_in, config_in_tokens, part_in, set_in, spaced_mark};

use crate::saved_configuration::{ConfState, ConfStateFault};
use ascii_text::number::read_number;
use ascii_text::tokens::next_token;
use std::alloc::{AllocError, Global};

/// Reads a printed configuration: `voters=(2 3)&&(1 2) learners=(4) learners_next=(1) autoleave`, without the parts
/// that are empty, but for the voters (own). The ids of a set may have any order, which is kept, and leading zeros.
/// Names, numbers and each of `(`, `)`, `=` and `&&` are tokens, and between two of them may be any white space. Any
/// other text is refused with BadConfState. The law [`one_config_per_text`](crate::laws::one_config_per_text) says which
/// ConfState a text denotes.
pub fn read_config(alloc: Global, text: &[u8]) -> Result<ConfState, ConfStateFault>
    ensures value { IfOk result (λ saved. config_in text.now ≡ Some saved) }
    ensures fault { result ≡ Err ConfStateFault.BadConfState → config_in text.now ≡ None }
{
    let spaced = with_spaced_marks(alloc, text)?;
    read_tokens(alloc, spaced.as_slice())
}

// The text with a space before and after each mark, so that each of them is a token between white space.
fn with_spaced_marks(alloc: Global, text: &[u8]) -> Result<Vec<u8>, AllocError>
    ensures { IfOk result (λ spaced. spaced.items ≡ flat_map spaced_mark text.now) }
{
    let mut spaced = Vec::with_capacity(alloc, text.len().min(256))?;
    for byte in text {
        if matches!(byte, b'(' | b')' | b'=') {
            spaced.extend_from_slice(&[b' ', *byte, b' '])?;
        } else {
            spaced.push(*byte)?;
        }
    }
    Ok(spaced)
}

// Reads the tokens of a printed configuration.
fn read_tokens(alloc: Global, text: &[u8]) -> Result<ConfState, ConfStateFault>
    ensures ok { IfOk result (λ saved. config_in_tokens (tokens_in text.now) ≡ Some saved) }
    ensures bad { result ≡ Err ConfStateFault.BadConfState
        → config_in_tokens (tokens_in text.now) ≡ None }
{
    let text = after_name(text, b"voters").ok_or(ConfStateFault::BadConfState)?;
    let (voters, text) = read_set(alloc, text)?;
    let (voters_outgoing, text) = read_part(alloc, after_token(text, b"&&"), text)?;
    let (learners, text) = read_part(alloc, after_name(text, b"learners"), text)?;
    let (learners_next, text) = read_part(alloc, after_name(text, b"learners_next"), text)?;
    let auto_leave = read_flag(text).ok_or(ConfStateFault::BadConfState)?;
    Ok(ConfState {
        voters,
        voters_outgoing,
        learners,
        learners_next,
        auto_leave,
    })
}

// The text after this token, if it is the first.
fn after_token<'a>(text: &'a [u8], expected: &[u8]) -> Option<&'a [u8]>
    ensures { option_map (λ rest. tokens_in rest.now) result
        ≡ after_token expected.now (tokens_in text.now) }
{
    match next_token(text) {
        Some((token, rest)) if token == expected => Some(rest),
        _ => None,
    }
}

// The text after a name and `=`.
fn after_name<'a>(text: &'a [u8], name: &[u8]) -> Option<&'a [u8]>
    ensures { option_map (λ rest. tokens_in rest.now) result
        ≡ after_name name.now (tokens_in text.now) }
{
    let rest = after_token(text, name)?;
    after_token(rest, b"=")
}

// Reads a set that may be left out, and returns the text after it. `begun` is the text after what it begins with.
fn read_part<'a>(
    alloc: Global,
    begun: Option<&'a [u8]>,
    text: &'a [u8],
) -> Result<(Vec<u64>, &'a [u8]), ConfStateFault>
    ensures ok { IfOk result
        (λ read. part_in (option_map (λ rest. tokens_in rest.now) begun.entry) (tokens_in text.now)
        ≡ Some (read.0.items, tokens_in read.1.now)) }
    ensures bad { result ≡ Err ConfStateFault.BadConfState
        → part_in (option_map (λ rest. tokens_in rest.now) begun.entry) (tokens_in text.now)
        ≡ None }
{
    let Some(rest) = begun else {
        return Ok((Vec::new(alloc), text));
    };
    let (ids, rest) = read_set(alloc, rest)?;
    if ids.is_empty() {
        return Err(ConfStateFault::BadConfState);
    }
    Ok((ids, rest))
}

// Reads numbers between brackets, and returns the text after them.
fn read_set<'a>(alloc: Global, text: &'a [u8]) -> Result<(Vec<u64>, &'a [u8]), ConfStateFault>
    ensures ok { IfOk result
        (λ read. set_in (tokens_in text.now) ≡ Some (read.0.items, tokens_in read.1.now)) }
    ensures bad { result ≡ Err ConfStateFault.BadConfState → set_in (tokens_in text.now) ≡ None }
{
    let text = after_token(text, b"(").ok_or(ConfStateFault::BadConfState)?;
    read_to_close(alloc, text)
}

// Reads numbers before a closing bracket, and returns the text after it.
fn read_to_close<'a>(alloc: Global, text: &'a [u8]) -> Result<(Vec<u64>, &'a [u8]), ConfStateFault>
    ensures ok { IfOk result (λ read. printed.numbers_to_close (tokens_in text.now)
        ≡ Some (read.0.items, tokens_in read.1.now)) }
    ensures bad { result ≡ Err ConfStateFault.BadConfState
        → printed.numbers_to_close (tokens_in text.now) ≡ None }
{
    let mut numbers = Vec::new(alloc);
    let mut rest = text;
    while let Some((token, suffix)) = next_token(rest) {
        if token == b")".as_slice() {
            return Ok((numbers, suffix));
        }
        let number = read_number(token).ok_or(ConfStateFault::BadConfState)?;
        numbers.push(number)?;
        rest = suffix;
    }
    Err(ConfStateFault::BadConfState)
}

// Reads what is left after the sets: `autoleave`, or nothing.
fn read_flag(text: &[u8]) -> Option<bool>
    ensures { result ≡ auto_leave_at_end (tokens_in text.now) }
{
    let Some((token, rest)) = next_token(text) else {
        return Some(false);
    };
    if token == b"autoleave".as_slice() && next_token(rest).is_none() {
        Some(true)
    } else {
        None
    }
}
