//! The outputs of a session, each in whole lines, which are appended to a text; on `NoMemory`, a part of them is. The
//! texts of configurations, members, refusals, charts and votes are those that etcd prints. `unknown command`, `this
//! command takes no input` and the errors of tokens (but for `bad number`) come from etcd's tests; the other errors are
//! own.
ghost use Rattle.std.specs.Prelude.{◌≡◌, ◌≢◌, ◌++◌, OnOk, IsSomeAnd};
ghost use Rattle.conf_change.specs.ChangeList.{bad_token};
ghost use Rattle.conf_change.specs.ConfState.{lists_of};
ghost use Rattle.conf_change.specs.Text.{refused_text, progress_text, bad_token_text};
ghost use Rattle.conf_change.specs.ConfStateLine.{conf_state_text};
ghost use Rattle.conf_session.specs.Quorum.{index_text};
ghost use Rattle.conf_session.specs.ReplyTexts.{line, tracker_text};

use crate::session_ids::SessionIds;
use ascii_text::append::append_number;
use conf_change::{
    Config, Progress, Refused, TokenFault, Tracker, conf_state, write_conf_state, write_config,
    write_progress, write_refused, write_token_fault,
};
use quorum_sets::NoMemory;

// Ends a line.
fn end_line(text: &mut Vec<u8>) -> Result<(), NoMemory>
    ensures { OnOk result (text.new.items ≡ line text.old.items) }
{
    text.push(b'\n')?;
    Ok(())
}

/// Appends the line of `prefix` and then `suffix`, such as `bad argument: ` and a key.
pub(crate) fn append_line(text: &mut Vec<u8>, prefix: &[u8], suffix: &[u8]) -> Result<(), NoMemory>
    ensures { OnOk result (text.new.items ≡ text.old.items ++ line (prefix.now ++ suffix.now)) }
{
    text.extend_from_slice(prefix)?;
    text.extend_from_slice(suffix)?;
    end_line(text)
}

/// Appends the error of a token of the input that is not a change.
pub(crate) fn append_bad_token(text: &mut Vec<u8>, fault: TokenFault<'_>) -> Result<(), NoMemory>
    ensures { OnOk result (IsSomeAnd (bad_token fault.entry)
        (λ bad. text.new.items ≡ text.old.items ++ line (bad_token_text bad))) }
{
    write_token_fault(text, fault)?;
    end_line(text)
}

/// Appends why a change was refused. Running out of memory is not a refusal that a script sees.
pub(crate) fn append_refused(text: &mut Vec<u8>, refused: Refused) -> Result<(), NoMemory>
    requires { refused ≢ Refused.NoMemory }
    ensures { OnOk result (text.new.items ≡ text.old.items ++ line (refused_text refused)) }
{
    write_refused(text, refused)?;
    end_line(text)
}

/// Appends the ConfState line of a configuration, which `restore` reads.
pub(crate) fn append_conf_state(
    text: &mut Vec<u8>,
    config: &Config<SessionIds>,
) -> Result<(), NoMemory>
    ensures { OnOk result (text.new.items ≡ text.old.items
        ++ line (conf_state_text (lists_of config.now))) }
{
    let state = conf_state(*text.allocator(), config)?;
    write_conf_state(text, &state)?;
    end_line(text)
}

/// Appends a committed index as a line. 2^64-1 is written `∞`, as in etcd, since a quorum without voters commits every
/// index.
pub(crate) fn append_index(text: &mut Vec<u8>, index: u64) -> Result<(), NoMemory>
    ensures { OnOk result (text.new.items ≡ text.old.items ++ line (index_text index)) }
{
    if index == u64::MAX {
        text.extend_from_slice(b"\xe2\x88\x9e")?;
    } else {
        append_number(text, index)?;
    }
    end_line(text)
}

/// Appends a configuration, then a line for each member with its progress, in ascending order of the ids: what an
/// accepted change prints.
pub(crate) fn append_tracker(
    text: &mut Vec<u8>,
    tracker: &Tracker<SessionIds>,
) -> Result<(), NoMemory>
    ensures { OnOk result (text.new.items ≡ text.old.items ++ tracker_text tracker.now) }
{
    write_config(text, tracker.config())?;
    end_line(text)?;
    for index in 0..tracker.member_count() {
        if let Some((id, progress)) = tracker.member_at(index) {
            append_member(text, id, progress)?;
        }
    }
    Ok(())
}

/// Appends the line of a member, as `1: StateProbe match=0 next=1`.
pub(crate) fn append_member(text: &mut Vec<u8>, id: u64, progress: Progress) -> Result<(), NoMemory>
    ensures { OnOk result (text.new.items ≡ text.old.items ++ line (progress_text id progress)) }
{
    write_progress(text, id, progress)?;
    end_line(text)
}
