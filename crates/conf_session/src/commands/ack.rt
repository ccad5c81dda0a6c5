//! `ack`: a member acknowledges an index of the log, as the leader learns from its `MsgAppResp` in etcd's raft
//! (`Progress.MaybeUpdate`).
ghost use Rattle.std.specs.Prelude.{◌≡◌, [], IfOk};
ghost use Rattle.conf_change.specs.ChangerState.{ChangerState};
ghost use Rattle.conf_session.specs.Reply.{reply_in};
ghost use Rattle.conf_session.specs.Commands as spec;

use crate::reply_texts::{append_line, append_member};
use crate::session_ids::SessionIds;
use crate::session_update::SessionUpdate;
use conf_change::{AckFault, Changer};
use quorum_sets::NoMemory;

/// Prints the member's progress after the acknowledgement, or why it is refused. The progress itself is altered when
/// the update is applied.
pub(super) fn run(
    text: &mut Vec<u8>,
    changer: &Changer<SessionIds>,
    id: u64,
    index: u64,
) -> Result<SessionUpdate, NoMemory>
    requires { text.old.items ≡ [] }
    ensures { IfOk result (λ update. (next : ChangerState)
        → reply_in changer.now next text.new.items update
        ≡ spec.reply_to_ack changer.now id index) }
{
    match changer.ack_answer(id, index) {
        Ok(progress) => {
            append_member(text, id, progress)?;
            Ok(SessionUpdate::Acknowledged(id, index))
        }
        Err(AckFault::NotMember) => {
            append_line(text, b"not a member", b"")?;
            Ok(SessionUpdate::Nothing)
        }
        Err(AckFault::IndexTooLarge) => {
            append_line(text, b"index too large", b"")?;
            Ok(SessionUpdate::Nothing)
        }
    }
}
