//! `simple`, `enter-joint`, `leave-joint` and `conf-change`: the changes of etcd's package `confchange`.
ghost use Rattle.std.specs.Prelude.{◌≡◌, [], IfOk};
ghost use Rattle.conf_change.specs.Transition.{step_of};
ghost use Rattle.conf_session.specs.Reply.{reply_in};
ghost use Rattle.conf_session.specs.Commands as spec;

use crate::reply_texts::{append_refused, append_tracker};
use crate::session_ids::SessionIds;
use crate::session_update::SessionUpdate;
use conf_change::{Change, Changer, Refused, StepKind};
use quorum_sets::NoMemory;

/// Takes the step in the next changer and prints the configuration after it, or prints why the step is refused. After a
/// refusal the next changer is not used.
pub(super) fn run(
    text: &mut Vec<u8>,
    changer: &Changer<SessionIds>,
    next: &mut Changer<SessionIds>,
    kind: StepKind,
    changes: &[Change],
) -> Result<SessionUpdate, NoMemory>
    requires { text.old.items ≡ [] }
    ensures { IfOk result (λ update. reply_in changer.now next.new text.new.items update
        ≡ spec.reply_to_step changer.now (step_of kind changes.now)) }
{
    match next.become_next(changer, kind, changes) {
        Ok(()) => {
            append_tracker(text, next.tracker())?;
            Ok(SessionUpdate::Stepped)
        }
        Err(Refused::NoMemory) => Err(NoMemory),
        Err(refused) => {
            append_refused(text, refused)?;
            Ok(SessionUpdate::Nothing)
        }
    }
}
