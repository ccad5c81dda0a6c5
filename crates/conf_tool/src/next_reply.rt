//! The reply of the mode `next` to one line.
ghost use Rattle.std.specs.Prelude.{◌≡◌, ◌++◌, IfOk, OnOk};
ghost use Rattle.conf_tool.specs.NextReply.{is_refused, next_reply};

use crate::pair_reading::is_skipped;
use driver_json::add_answer;
use quorum_sets::NoMemory;
use std::alloc::Global;

/// Appends the reply to a line, and returns whether the line is refused. Nothing is appended for a line that is skipped.
pub(crate) fn answer_view(alloc: Global, line: &[u8], text: &mut Vec<u8>) -> Result<bool, NoMemory>
    ensures text { OnOk result (text.new.items ≡ text.old.items ++ next_reply line.now) }
    ensures refused { IfOk result (λ refused. refused ≡ is_refused line.now) }
{
    if is_skipped(line) {
        return Ok(false);
    }
    add_answer(alloc, text, line)
}
