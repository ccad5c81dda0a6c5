//! What is wrong with a ConfState that describes no valid configuration, or with a configuration that is not valid. A
//! user who wrote it by hand is shown the id to look at.
//!
//! What names no source here is own.
ghost use Rattle.std.specs.Prelude.{◌≡◌, ◌↔◌, Some, None, Err, true, IsOk};
ghost use Rattle.conf_change.specs.Configuration.{first_broken, is_valid};
ghost use Rattle.conf_change.specs.Violation.{violation_of};
ghost use Rattle.conf_change.specs.declared.config.Invariant.{Invariant};

use crate::config::{Config, Invariant};
use crate::find_id::find_id;
use quorum_sets::MemberSet;
use thiserror::Error;

/// An id that a list of a ConfState names twice, or an invariant that a configuration breaks, with the least id that
/// breaks it, if the invariant is about ids.
#[derive(Clone, Copy, Debug, PartialEq, Eq, Error)]
pub enum Violation {
    /// As in `Voters:[3 3]`.
    #[error("{0} is listed twice")]
    ListedTwice(u64),
    /// As in `Voters:[0 1]`.
    #[error("0 is not an id")]
    ZeroId,
    /// As in `Voters:[1] VotersOutgoing:[1 2] Learners:[] LearnersNext:[3]`.
    #[error("{0} is a next learner and not an outgoing voter")]
    NextNotOutgoing(u64),
    /// As in `Voters:[1 2] VotersOutgoing:[1 2] Learners:[] LearnersNext:[2]`.
    #[error("{0} is a next learner and an incoming voter")]
    NextAndIncoming(u64),
    /// As in `Voters:[1 2] VotersOutgoing:[] Learners:[2]`.
    #[error("{0} is a voter and a learner")]
    LearnerAndVoter(u64),
    /// As in `Voters:[1 2] VotersOutgoing:[] Learners:[] LearnersNext:[] AutoLeave:true`.
    #[error("auto-leave without outgoing voters")]
    NotJointButAutoLeave,
}

/// The first invariant that a configuration breaks, with the least id that breaks it; none if it is valid.
pub fn first_violation<S: MemberSet>(config: &Config<S>) -> Option<Violation>
    ensures value { result ≡ violation_of config.now }
    ensures none { (result ≡ None) ↔ (is_valid config.now ≡ true) }
{
    let Config {
        incoming,
        outgoing,
        learners,
        learners_next: next,
        auto_leave,
    } = config;
    if incoming.contains(0) || outgoing.contains(0) || learners.contains(0) || next.contains(0) {
        return Some(Violation::ZeroId);
    }
    if let Some(id) = find_id(next, |id| !outgoing.contains(id)) {
        return Some(Violation::NextNotOutgoing(id));
    }
    if let Some(id) = find_id(next, |id| incoming.contains(id)) {
        return Some(Violation::NextAndIncoming(id));
    }
    if let Some(id) = find_id(
        learners,
        |id| incoming.contains(id) || outgoing.contains(id),
    ) {
        return Some(Violation::LearnerAndVoter(id));
    }
    if *auto_leave && !config.is_joint() {
        return Some(Violation::NotJointButAutoLeave);
    }
    None
}

/// Checks a configuration; the error is the first invariant that it breaks (etcd's `checkInvariants`).
pub fn check<S: MemberSet>(config: &Config<S>) -> Result<(), Invariant>
    ensures valid { IsOk result ↔ (is_valid config.now ≡ true) }
    ensures first { (broken : Invariant)
        → ((result ≡ Err broken) ↔ (first_broken config.now ≡ Some broken)) }
{
    match first_violation(config) {
        None => Ok(()),
        Some(Violation::ListedTwice(_)) => unreachable!(),
        Some(Violation::ZeroId) => Err(Invariant::ZeroId),
        Some(Violation::NextNotOutgoing(_)) => Err(Invariant::NextNotOutgoing),
        Some(Violation::NextAndIncoming(_)) => Err(Invariant::NextAndIncoming),
        Some(Violation::LearnerAndVoter(_)) => Err(Invariant::LearnerAndVoter),
        Some(Violation::NotJointButAutoLeave) => Err(Invariant::NotJointButAutoLeave),
    }
}
