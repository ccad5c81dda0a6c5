//! ConfState lines, written and read: a saved configuration in one line, as `raft.DescribeConfState` of etcd prints it.
//!
//! ```text
//! Voters:[1 2] VotersOutgoing:[] Learners:[3] LearnersNext:[] AutoLeave:false
//! ```
//!
//! Reading such a line is own; etcd only prints them.
ghost use Rattle.std.specs.Prelude.{◌≡◌, ◌++◌, Some, None, Err, IfOk, OnOk, OnErr};
ghost use Rattle.ascii_text.specs.Append.{Extends};
ghost use Rattle.conf_change.specs.Text.{spaced_numbers};
ghost use Rattle.conf_change.specs.ConfStateLine as line;
ghost use Rattle.conf_change.specs.ConfStateLine.{ParsesToNumbers, DenotesConfState, conf_state_text, conf_state_in, numbers_in, field_in, auto_leave_in};

use crate::append::append_numbers;
use crate::saved_configuration::{ConfState, ConfStateFault};
use ascii_text::append::{append, undo_if_failed};
use ascii_text::number::read_number;
use ascii_text::position::{find_far_byte, split_at_first};
use ascii_text::white_space::trimmed;
use quorum_sets::NoMemory;
use std::alloc::{AllocError, AllocFailed, Global};

impl From<AllocFailed<u64>> for ConfStateFault {
    ghost use Rattle.conf_change.specs.declared.saved_configuration.ConfStateFault.TheVariants.{NoMemory};

    ghost from_gives = { λ _ fault. fault ≡ NoMemory };

    fn from(_error: AllocFailed<u64>) -> ConfStateFault {
        ConfStateFault::NoMemory
    }
}

impl From<AllocError> for ConfStateFault {
    ghost use Rattle.conf_change.specs.declared.saved_configuration.ConfStateFault.TheVariants.{NoMemory};

    ghost from_gives = { λ _ fault. fault ≡ NoMemory };

    fn from(_error: AllocError) -> ConfStateFault {
        ConfStateFault::NoMemory
    }
}

/// Appends the line of a ConfState, without a newline, its lists in their order (etcd's `raft.DescribeConfState`).
pub fn write_conf_state(text: &mut Vec<u8>, state: &ConfState) -> Result<(), NoMemory>
    ensures ok { OnOk result (text.new.items ≡ text.old.items ++ conf_state_text state.now) }
    ensures denotes { OnOk result (DenotesConfState (conf_state_text state.now) state.now) }
    ensures err { OnErr result (text.new.items ≡ text.old.items) }
{
    let len = text.len();
    let appended = append_conf_state(text, state);
    undo_if_failed(text, len, appended)
}

fn append_conf_state(text: &mut Vec<u8>, state: &ConfState) -> Result<(), NoMemory>
    ensures ok { OnOk result (text.new.items ≡ text.old.items ++ conf_state_text state.now) }
    ensures denotes { OnOk result (DenotesConfState (conf_state_text state.now) state.now) }
    ensures extends { Extends text.old.items text.new.items }
{
    append_field(text, b"Voters:[", &state.voters)?;
    append_field(text, b"] VotersOutgoing:[", &state.voters_outgoing)?;
    append_field(text, b"] Learners:[", &state.learners)?;
    append_field(text, b"] LearnersNext:[", &state.learners_next)?;
    append(text, b"] AutoLeave:")?;
    append(text, truth_text(state.auto_leave))
}

fn truth_text(truth: bool) -> &'static [u8]
    ensures { result.now ≡ line.truth_text truth }
{
    if truth { b"true" } else { b"false" }
}

// Appends the prefix of a field, as `Voters:[`, and its numbers.
fn append_field(text: &mut Vec<u8>, name: &[u8], numbers: &[u64]) -> Result<(), NoMemory>
    ensures ok { OnOk result
        (text.new.items ≡ text.old.items ++ (name.now ++ spaced_numbers numbers.now)) }
    ensures parsed { OnOk result (ParsesToNumbers (spaced_numbers numbers.now) numbers.now) }
    ensures extends { Extends text.old.items text.new.items }
{
    append(text, name)?;
    append_numbers(text, numbers)
}

/// Reads a ConfState line: the form that `write_conf_state` appends, with any white space around it and any leading
/// zeros in its numbers, and nothing else (own). A list may have any order, which is kept. A line in another form is
/// refused with BadConfState. The law [`one_conf_state_per_text`](crate::laws::one_conf_state_per_text) says which
/// ConfState a text denotes.
pub fn read_conf_state(alloc: Global, text: &[u8]) -> Result<ConfState, ConfStateFault>
    ensures value { IfOk result (λ state. conf_state_in text.now ≡ Some state) }
    ensures fault { result ≡ Err ConfStateFault.BadConfState → conf_state_in text.now ≡ None }
{
    let (voters, text) = read_field(alloc, b"Voters:[", trimmed(text))?;
    let (voters_outgoing, text) = read_field(alloc, b"] VotersOutgoing:[", text)?;
    let (learners, text) = read_field(alloc, b"] Learners:[", text)?;
    let (learners_next, text) = read_field(alloc, b"] LearnersNext:[", text)?;
    let auto_leave = read_flag(text).ok_or(ConfStateFault::BadConfState)?;
    Ok(ConfState {
        voters,
        voters_outgoing,
        learners,
        learners_next,
        auto_leave,
    })
}

// Reads the numbers between a prefix and the next closing bracket. The text that is left begins with that bracket.
fn read_field<'a>(
    alloc: Global,
    prefix: &[u8],
    text: &'a [u8],
) -> Result<(Vec<u64>, &'a [u8]), ConfStateFault>
    ensures ok { IfOk result
        (λ read. field_in prefix.now text.now ≡ Some (read.0.items, read.1.now)) }
    ensures bad { result ≡ Err ConfStateFault.BadConfState → field_in prefix.now text.now ≡ None }
{
    let text = text
        .strip_prefix(prefix)
        .ok_or(ConfStateFault::BadConfState)?;
    let (numbers, rest) = text.split_at(find_far_byte(text, b']'));
    Ok((read_numbers(alloc, numbers)?, rest))
}

// Reads numbers that are separated by one space.
fn read_numbers(alloc: Global, text: &[u8]) -> Result<Vec<u64>, ConfStateFault>
    ensures ok { IfOk result (λ numbers. numbers_in text.now ≡ Some numbers.items) }
    ensures bad { result ≡ Err ConfStateFault.BadConfState → numbers_in text.now ≡ None }
{
    if text.is_empty() {
        return Ok(Vec::new(alloc));
    }
    // A number and the space after it have at least two bytes.
    let mut numbers = Vec::with_capacity(alloc, text.len().div_ceil(2).min(64))?;
    let mut rest = text;
    loop {
        let (token, suffix) = split_at_first(rest, b' ');
        let number = read_number(token).ok_or(ConfStateFault::BadConfState)?;
        numbers.push(number)?;
        let [_, next @ ..] = suffix else {
            return Ok(numbers);
        };
        rest = next;
    }
}

// Reads the last field, `] AutoLeave:` with its value.
fn read_flag(text: &[u8]) -> Option<bool>
    ensures { result ≡ auto_leave_in text.now }
{
    if text == b"] AutoLeave:true".as_slice() {
        Some(true)
    } else if text == b"] AutoLeave:false".as_slice() {
        Some(false)
    } else {
        None
    }
}
