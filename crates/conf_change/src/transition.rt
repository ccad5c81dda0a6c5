//! Which step etcd takes for a list of changes. A `raftpb.ConfChangeV2` does not name its step: the transition and the
//! length of the list decide:
//!
//! ```text
//!            no change       one change      more changes
//! Auto       leave-joint     simple          enter-joint autoleave=true
//! Implicit   enter-joint autoleave=true, always
//! Explicit   enter-joint autoleave=false, always
//! ```
ghost use Rattle.std.specs.Prelude.{◌≡◌};
ghost use Rattle.conf_change.specs.Transition.{step_kind_of};

use crate::change::Change;
use crate::step::StepKind;

/// How a list of changes is applied (etcd's `raftpb.ConfChangeTransition`).
#[derive(Clone, Copy, Debug, PartialEq, Eq)]
pub enum Transition {
    /// An empty list leaves a joint configuration, one change is a simple step, and more than one enter a joint
    /// configuration that is left automatically.
    Auto,
    /// Every list enters a joint configuration, which is left automatically.
    Implicit,
    /// Every list enters a joint configuration, which stays until another step leaves it.
    Explicit,
}

/// The kind of the step that etcd takes for a list of changes (`EnterJoint` and `LeaveJoint` of its
/// `raftpb.ConfChangeV2`). With Auto, an empty list leaves a joint configuration, and one change is a simple step. In
/// all other cases the step enters a joint configuration, with auto-leave unless the transition is Explicit. Each
/// change of the list counts, even an update, a repeated change, or a change of the id 0.
pub fn taken(transition: Transition, changes: &[Change]) -> StepKind
    ensures { result ≡ step_kind_of transition changes.now }
{
    match (transition, changes.len()) {
        (Transition::Auto, 0) => StepKind::Leave,
        (Transition::Auto, 1) => StepKind::Simple,
        (Transition::Auto | Transition::Implicit, _) => StepKind::Enter(true),
        (Transition::Explicit, _) => StepKind::Enter(false),
    }
}
