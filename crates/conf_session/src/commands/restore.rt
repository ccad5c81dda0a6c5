//! `restore`: begins again from a saved configuration, as etcd's `confchange.Restore` does. The progress of each member
//! is fresh.
ghost use Rattle.std.specs.Prelude.{◌≡◌, [], IfOk};
ghost use Rattle.conf_change.specs.ConfState.{restored};
ghost use Rattle.conf_session.specs.Reply.{reply_in};
ghost use Rattle.conf_session.specs.Commands as spec;

use crate::reply_texts::{append_line, append_tracker};
use crate::session_ids::SessionIds;
use crate::session_update::SessionUpdate;
use conf_change::{Changer, ConfState, RestoreFault, laws};
use quorum_sets::NoMemory;

/// Restores the saved configuration into the next changer, and prints it, or that it is not a configuration. The last
/// index and the floor stay those of the session.
pub(super) fn run(
    text: &mut Vec<u8>,
    changer: &Changer<SessionIds>,
    next: &mut Changer<SessionIds>,
    saved: &ConfState,
) -> Result<SessionUpdate, NoMemory>
    requires { text.old.items ≡ [] }
    ensures { IfOk result (λ update. reply_in changer.now next.new text.new.items update
        ≡ spec.restore_reply changer.now (restored saved.now)) }
{
    laws::restored_is_described();
    let alloc = *text.allocator();
    match Changer::restore_with_floor(alloc, saved, changer.last_index(), changer.floor()) {
        Ok(after) => {
            *next = after;
            append_tracker(text, next.tracker())?;
            Ok(SessionUpdate::Restored)
        }
        Err(RestoreFault::NotAConfiguration) => {
            append_line(text, b"not a configuration", b"")?;
            Ok(SessionUpdate::Nothing)
        }
        Err(RestoreFault::NoMemory) => Err(NoMemory),
    }
}
