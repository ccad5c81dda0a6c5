//! The printed texts of configurations, progress and refusals, as the test scripts of etcd's raft packages have them:
//!
//! ```text
//! voters=(2 3)&&(1 2) learners=(4) autoleave
//! 1: StateProbe match=0 next=1
//! 2: StateProbe match=0 next=1
//! 3: StateProbe match=0 next=1
//! 4: StateProbe match=0 next=1 learner
//! ```
ghost use Rattle.std.specs.Prelude.{◌≡◌, ◌≢◌, ◌++◌, not, decimal, OnOk, OnErr, IsSomeAnd};
ghost use Rattle.quorum_sets.specs.Ids.{ascending, is_empty};
ghost use Rattle.ascii_text.specs.Append.{Extends};
ghost use Rattle.conf_change.specs.Text.{spaced_numbers, set_text, text_if, config_text, progress_text, refused_text, bad_token_text};
ghost use Rattle.conf_change.specs.ChangeList.{bad_token};

use crate::append::{append_if, append_number_at};
use crate::change_list::TokenFault;
use crate::config::Config;
use crate::progress::Progress;
use crate::refused::Refused;
use ascii_text::append::{append, append_number, undo_if_failed};
use quorum_sets::{MemberSet, NoMemory};

/// Appends a configuration, without a newline: `voters=(1 2)`, `&&(2 3)` if it is joint, its learners and next learners
/// if it has any, and `autoleave` if that is set. Ids are in ascending order (`Config.String` of etcd's package
/// `tracker`).
pub fn write_config<S: MemberSet>(text: &mut Vec<u8>, config: &Config<S>) -> Result<(), NoMemory>
    ensures ok { OnOk result (text.new.items ≡ text.old.items ++ config_text config.now) }
    ensures err { OnErr result (text.new.items ≡ text.old.items) }
{
    let len = text.len();
    let appended = append_config(text, config);
    undo_if_failed(text, len, appended)
}

fn append_config<S: MemberSet>(text: &mut Vec<u8>, config: &Config<S>) -> Result<(), NoMemory>
    ensures ok { OnOk result (text.new.items ≡ text.old.items ++ config_text config.now) }
    ensures extends { Extends text.old.items text.new.items }
{
    append_set(text, b"voters=", &config.incoming)?;
    append_any(text, b"&&", &config.outgoing)?;
    append_any(text, b" learners=", &config.learners)?;
    append_any(text, b" learners_next=", &config.learners_next)?;
    append_if(text, config.auto_leave, b" autoleave")
}

// Appends a name and a set, unless the set is empty.
#[inline(always)]
fn append_any<S: MemberSet>(text: &mut Vec<u8>, name: &[u8], set: &S) -> Result<(), NoMemory>
    ensures ok { OnOk result (text.new.items
        ≡ text.old.items
        ++ text_if (not (is_empty (S.ids set.now))) (name.now ++ set_text (S.ids set.now))) }
    ensures extends { Extends text.old.items text.new.items }
{
    if set.len() > 0 {
        append_set(text, name, set)?;
    }
    Ok(())
}

// Appends a name and a set.
#[inline(always)]
fn append_set<S: MemberSet>(text: &mut Vec<u8>, name: &[u8], set: &S) -> Result<(), NoMemory>
    ensures ok { OnOk result
        (text.new.items ≡ text.old.items ++ (name.now ++ set_text (S.ids set.now))) }
    ensures extends { Extends text.old.items text.new.items }
{
    append(text, name)?;
    append(text, b"(")?;
    append_ids(text, set)?;
    append(text, b")")
}

// Appends the ids of a set, separated by one space.
fn append_ids<S: MemberSet>(text: &mut Vec<u8>, set: &S) -> Result<(), NoMemory>
    ensures ok { OnOk result
        (text.new.items ≡ text.old.items ++ spaced_numbers (ascending (S.ids set.now))) }
    ensures extends { Extends text.old.items text.new.items }
{
    for position in 0..set.len() {
        if let Some(id) = set.at(position) {
            append_number_at(text, position, id)?;
        }
    }
    Ok(())
}

/// Appends a member's progress, without a newline: `1: StateProbe match=0 next=1`, followed by ` learner` for a learner
/// (`ProgressMap.String` of etcd's package `tracker`). StateProbe is the state in which etcd's leader begins with every
/// member.
pub fn write_progress(text: &mut Vec<u8>, id: u64, progress: Progress) -> Result<(), NoMemory>
    ensures ok { OnOk result (text.new.items ≡ text.old.items ++ progress_text id progress) }
    ensures err { OnErr result (text.new.items ≡ text.old.items) }
{
    let len = text.len();
    let appended = append_progress(text, id, progress);
    undo_if_failed(text, len, appended)
}

fn append_progress(text: &mut Vec<u8>, id: u64, progress: Progress) -> Result<(), NoMemory>
    ensures ok { OnOk result (text.new.items ≡ text.old.items ++ progress_text id progress) }
    ensures extends { Extends text.old.items text.new.items }
{
    append_number(text, id)?;
    append_labelled(text, b": StateProbe match=", progress.matched)?;
    append_labelled(text, b" next=", progress.next)?;
    append_if(text, progress.learner, b" learner")
}

// Appends a label, such as ` next=`, and its number.
fn append_labelled(text: &mut Vec<u8>, label: &[u8], number: u64) -> Result<(), NoMemory>
    ensures ok { OnOk result (text.new.items ≡ text.old.items ++ (label.now ++ decimal number)) }
    ensures extends { Extends text.old.items text.new.items }
{
    append(text, label)?;
    append_number(text, number)?;
    Ok(())
}

/// Appends the message of a refusal, without a newline, as etcd's package `confchange` has it, such as
/// `removed all voters`.
pub fn write_refused(text: &mut Vec<u8>, refused: Refused) -> Result<(), NoMemory>
    requires { refused ≢ Refused.NoMemory }
    ensures ok { OnOk result (text.new.items ≡ text.old.items ++ refused_text refused) }
    ensures err { OnErr result (text.new.items ≡ text.old.items) }
{
    text.extend_from_slice(refused.text().as_bytes())?;
    Ok(())
}

/// Appends the message of a bad token, which ends with the token, without a newline: `unknown token v` or
/// `unknown input: x1`, as etcd's test scripts have it, or `bad number: v-1` (own). `NoMemory` has no message; it is
/// returned as the error.
pub fn write_token_fault(text: &mut Vec<u8>, fault: TokenFault<'_>) -> Result<(), NoMemory>
    ensures ok { OnOk result (IsSomeAnd (bad_token fault.entry)
        (λ bad. text.new.items ≡ text.old.items ++ bad_token_text bad)) }
    ensures err { OnErr result (text.new.items ≡ text.old.items) }
{
    match fault {
        TokenFault::UnknownToken(token) => append_both(text, b"unknown token ", token),
        TokenFault::UnknownInput(token) => append_both(text, b"unknown input: ", token),
        TokenFault::BadNumber(token) => append_both(text, b"bad number: ", token),
        TokenFault::NoMemory => Err(NoMemory),
    }
}

// Appends a message and its token.
fn append_both(text: &mut Vec<u8>, message: &[u8], token: &[u8]) -> Result<(), NoMemory>
    ensures ok { OnOk result (text.new.items ≡ text.old.items ++ (message.now ++ token.now)) }
    ensures err { OnErr result (text.new.items ≡ text.old.items) }
{
    let len = text.len();
    append(text, message)?;
    let appended = append(text, token);
    undo_if_failed(text, len, appended)
}
