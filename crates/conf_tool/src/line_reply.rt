//! The reply of the mode `lines` to one line.
ghost use Rattle.std.specs.Prelude.{◌≡◌, ◌++◌, OnOk};
ghost use Rattle.conf_tool.specs.LineReply.{line_reply};

use ascii_text::tokens::next_token;
use conf_change::{
    Config, Refused, StepKind, next_config_into, read_change, write_config, write_refused,
    write_token_fault,
};
use conf_session::SessionIds;
use quorum_sets::NoMemory;
use std::mem::swap;

/// Makes the change on a line, and appends the reply without its newline. The memory of `next` is used for the
/// configuration after the change. On `NoMemory` the text may have a part of the reply.
pub(crate) fn answer_line(
    config: &mut Config<SessionIds>,
    next: &mut Config<SessionIds>,
    line: &[u8],
    text: &mut Vec<u8>,
) -> Result<(), NoMemory>
    ensures text { OnOk result (text.new.items
        ≡ text.old.items ++ (line_reply config.old line.now).text) }
    ensures after { OnOk result (config.new ≡ (line_reply config.old line.now).after) }
{
    let token = match next_token(line) {
        Some((token, rest)) if next_token(rest).is_none() => token,
        _ => {
            text.extend_from_slice(b"one change expected")?;
            return Ok(());
        }
    };
    let change = match read_change(token) {
        Ok(change) => change,
        Err(fault) => return write_token_fault(text, fault),
    };
    match next_config_into(next, config, StepKind::Simple, &[change]) {
        Ok(()) => {
            write_config(text, next)?;
            swap(config, next);
            Ok(())
        }
        Err(refused) => match refused {
            Refused::NoMemory => Err(NoMemory),
            _ => write_refused(text, refused),
        },
    }
}
