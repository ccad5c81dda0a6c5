//! What is proposed for a step: the transition and the changes of a `raftpb.ConfChangeV2`.
//!
//! ```text
//! simple v4                     Auto                by v4
//! enter-joint autoleave=true    JointImplicit       by an update of the least incoming voter
//! leave-joint                   Auto                by no change
//! ```
ghost use Rattle.std.specs.Prelude.{◌≡◌, [], ◌∷◌, None, IfSome};
ghost use Rattle.conf_change.specs.Step.{changes_of};
ghost use Rattle.raft_json.specs.Proposal as spec;
ghost use Rattle.raft_json.specs.Proposal.{proposed_changes};

use conf_change::{Change, Config, Kind, Step, Transition};
use quorum_sets::MemberSet;

/// The transition to propose for a step: Auto for a simple step and for leaving a joint configuration; for entering one
/// JointImplicit with auto-leave, and JointExplicit without.
pub fn transition_of(step: &Step) -> Transition
    ensures { result ≡ spec.transition_of step.now }
{
    match step {
        Step::Simple(_) | Step::LeaveJoint => Transition::Auto,
        Step::EnterJoint(true, _) => Transition::Implicit,
        Step::EnterJoint(false, _) => Transition::Explicit,
    }
}

/// The change that is proposed for a step without one that does not leave: an update of the least incoming voter, since
/// etcd's leader takes an empty list for leaving. For any other step it is `None`, and its own changes are proposed.
pub fn proposed_update<S: MemberSet>(before: &Config<S>, step: &Step) -> Option<Change>
    ensures update { IfSome result (λ change. proposed_changes before.now step.now ≡ change ∷ []) }
    ensures own { result ≡ None → proposed_changes before.now step.now ≡ changes_of step.now }
{
    match (step, before.incoming.at(0)) {
        (Step::Simple(changes) | Step::EnterJoint(_, changes), Some(id))
            if changes.as_slice().is_empty() => {
            let kind = Kind::Update;
            Some(Change { kind, id })
        }
        _ => None,
    }
}
