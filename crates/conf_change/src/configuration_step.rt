//! Steps of a configuration alone, for a caller that keeps the progress of the members itself, or needs none. They are
//! those of a [`Changer`](crate::Changer), and are refused alike:
//!
//! ```text
//! (1 2 3)        --enter-joint v4 r1-->  (2 3 4)&&(1 2 3)
//! (1 2)          --simple r1 r2-->       refused: RemovedAllVoters
//! ```
ghost use Rattle.std.specs.Prelude.{◌≡◌, ◌≢◌, Ok, Err, IfOk, IfErr, OnOk};
ghost use Rattle.conf_change.specs.Change.{result_of};
ghost use Rattle.conf_change.specs.Edits.{AreEdits, HasEdits, with_voters_out};
ghost use Rattle.conf_change.specs.Outcome.{outcome};
ghost use Rattle.conf_change.specs.Transition.{step_of};
ghost use Rattle.conf_change.specs.declared.step.Step.TheVariants.{Simple, EnterJoint, LeaveJoint};

use crate::change::Change;
use crate::config::Config;
use crate::edit_list::{Edits, settle};
use crate::refused::Refused;
use crate::step::StepKind;
use quorum_sets::{MemberSet, NoMemory, symdiff};
use smallvec::SmallVec;

/// The configuration after a step of this kind. Leaving a joint configuration ignores `changes` (etcd's `Simple`,
/// `EnterJoint` and `LeaveJoint` of its package `confchange`). Refused as [`Changer::step`](crate::Changer::step) is.
pub fn next_config<S: MemberSet>(
    before: &Config<S>,
    kind: StepKind,
    changes: &[Change],
) -> Result<Config<S>, Refused>
    ensures accepted { IfOk result
        (λ next. outcome before.now (step_of kind changes.now) ≡ Ok next) }
    ensures refused { IfErr result (λ why. why ≢ Refused.NoMemory
        → outcome before.now (step_of kind changes.now) ≡ Err why) }
{
    let mut next = Config::empty(before.incoming.allocator());
    next_config_into(&mut next, before, kind, changes)?;
    Ok(next)
}

/// As [`next_config`], but overwrites a configuration, whose memory is used again (own). If the step is refused, its
/// content is unspecified.
pub fn next_config_into<S: MemberSet>(
    next: &mut Config<S>,
    before: &Config<S>,
    kind: StepKind,
    changes: &[Change],
) -> Result<(), Refused>
    ensures accepted { OnOk result (outcome before.now (step_of kind changes.now) ≡ Ok next.new) }
    ensures refused { IfErr result (λ why. why ≢ Refused.NoMemory
        → outcome before.now (step_of kind changes.now) ≡ Err why) }
{
    let mut edits = SmallVec::new(before.incoming.allocator());
    become_next(next, &mut edits, before, kind, changes)
}

// Overwrites a configuration with the result of a step, and `edits` with what its changes make of each id that they
// name; leaving a joint configuration has none. If the step is refused, their contents are unspecified.
pub(crate) fn become_next<S: MemberSet>(
    next: &mut Config<S>,
    edits: &mut Edits,
    before: &Config<S>,
    kind: StepKind,
    changes: &[Change],
) -> Result<(), Refused>
    ensures accepted { OnOk result (outcome before.now (step_of kind changes.now) ≡ Ok next.new) }
    ensures refused { IfErr result (λ why. why ≢ Refused.NoMemory
        → outcome before.now (step_of kind changes.now) ≡ Err why) }
    ensures edits { OnOk result (HasEdits kind changes.now next.new.outgoing edits.new.items) }
{
    match kind {
        StepKind::Simple => become_simple(next, edits, before, changes),
        StepKind::Enter(auto_leave) => become_joint(next, edits, before, auto_leave, changes),
        StepKind::Leave => become_left(next, before),
    }
}

// Overwrites a configuration with the result of a simple change.
#[tactic(auto, using(crate::proofs::Steps::OneChange::few_voters))]
fn become_simple<S: MemberSet>(
    next: &mut Config<S>,
    edits: &mut Edits,
    before: &Config<S>,
    changes: &[Change],
) -> Result<(), Refused>
    ensures accepted { OnOk result (outcome before.now (Simple changes.now) ≡ Ok next.new) }
    ensures refused { IfErr result
        (λ why. why ≢ Refused.NoMemory → outcome before.now (Simple changes.now) ≡ Err why) }
    ensures edits { OnOk result (AreEdits changes.now next.new.outgoing edits.new.items) }
{
    if before.is_joint() {
        return Err(Refused::SimpleInJoint);
    }
    become_changed(
        next,
        edits,
        before,
        &before.outgoing,
        before.auto_leave,
        changes,
    )?;
    if !next.has_voter() {
        return Err(Refused::RemovedAllVoters);
    }
    // One change alters at most one voter.
    if changes.len() != 1 && symdiff(&before.incoming, &next.incoming) > 1 {
        return Err(Refused::MoreThanOneVoter);
    }
    Ok(())
}

// Overwrites a configuration with the result of entering a joint one.
fn become_joint<S: MemberSet>(
    next: &mut Config<S>,
    edits: &mut Edits,
    before: &Config<S>,
    auto_leave: bool,
    changes: &[Change],
) -> Result<(), Refused>
    ensures accepted { OnOk result
        (outcome before.now (EnterJoint auto_leave changes.now) ≡ Ok next.new) }
    ensures refused { IfErr result (λ why. why ≢ Refused.NoMemory
        → outcome before.now (EnterJoint auto_leave changes.now) ≡ Err why) }
    ensures edits { OnOk result (AreEdits changes.now next.new.outgoing edits.new.items) }
{
    if before.is_joint() {
        return Err(Refused::AlreadyJoint);
    }
    if !before.has_voter() {
        return Err(Refused::ZeroVoterJoint);
    }
    become_changed(next, edits, before, &before.incoming, auto_leave, changes)?;
    if !next.has_voter() {
        return Err(Refused::RemovedAllVoters);
    }
    Ok(())
}

// Overwrites a configuration with the result of leaving a joint one.
fn become_left<S: MemberSet>(next: &mut Config<S>, before: &Config<S>) -> Result<(), Refused>
    ensures accepted { OnOk result (outcome before.now LeaveJoint ≡ Ok next.new) }
    ensures refused { IfErr result
        (λ why. why ≢ Refused.NoMemory → outcome before.now LeaveJoint ≡ Err why) }
{
    if !before.is_joint() {
        return Err(Refused::NotJoint);
    }
    *next = before.after_leave()?;
    Ok(())
}

// Overwrites a configuration with the result of the changes, among these outgoing voters, and `edits` with theirs.
fn become_changed<S: MemberSet>(
    next: &mut Config<S>,
    edits: &mut Edits,
    before: &Config<S>,
    outgoing: &S,
    auto_leave: bool,
    changes: &[Change],
) -> Result<(), NoMemory>
    ensures changed { OnOk result
        (next.new ≡ result_of
        (with_voters_out before.now (S.ids outgoing.now) auto_leave) changes.now) }
    ensures edits { OnOk result (AreEdits changes.now (S.ids outgoing.now) edits.new.items) }
{
    settle(edits, changes, outgoing)?;
    next.become_edited(before, outgoing, auto_leave, edits.as_slice())
}
