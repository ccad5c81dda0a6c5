//! What to do next on the way to a target.
ghost use Rattle.std.specs.Prelude.{◌≡◌, ◌≢◌, ◌↔◌, true, false, Err, IfOk};
ghost use Rattle.conf_change.specs.Configuration.{has_voter, is_valid};
ghost use Rattle.conf_plan.specs.PathBy.{has_path};
ghost use Rattle.conf_driver.specs.Next as spec;
ghost use Rattle.conf_driver.specs.Next.{IsWellPosed, next_of};
ghost use Rattle.conf_driver.specs.Situation.{values_of};
ghost use Rattle.conf_driver.specs.View as view_spec;

use crate::action::Action;
use crate::situation::{Situation, situation_of};
use crate::view::{View, lacks_conf_index, lacks_leader_progress};
use conf_change::{Config, Step};
use conf_plan::{NoPath, Path, Strategy, plan_by};
use plan_output::stalls;
use quorum_sets::{InlineIds, NoMemory};
use std::alloc::Global;
use thiserror::Error;

/// Why there is no answer.
#[derive(Clone, Copy, Debug, PartialEq, Eq, Error)]
pub enum NextFault {
    /// By [`Strategy::Shortest`] new voters vote with empty logs, so the cluster may stall on the way.
    #[error("the strategy is shortest: its new voters may stall the cluster")]
    Shortest,
    /// The target has auto-leave, so raft leaves it by itself.
    #[error("the target has auto-leave: raft leaves it by itself")]
    AutoLeaveTarget,
    /// There is a leader, and `conf_index` is 0.
    #[error("there is a leader, and conf_index is 0")]
    NoConfIndex,
    /// The leader is a member, and `progress` has no entry of it.
    #[error("the leader is a member, and progress has no entry of it")]
    NoLeaderProgress,
    /// The current configuration has no voter.
    #[error("no plan: the current configuration has no voter")]
    NoVoterNow,
    /// The target has no voter.
    #[error("no plan: the target has no voter")]
    NoVoterTarget,
    /// The target is joint, and [`Strategy::OneAtATime`] does not enter joint configurations.
    #[error("no plan: the target is joint")]
    JointTarget,
    /// An allocation failed.
    #[error("out of memory")]
    NoMemory,
}

impl From<NoMemory> for NextFault {
    ghost use Rattle.conf_driver.specs.declared.answer.NextFault.TheVariants.{NoMemory};

    ghost from_gives = { λ _ fault. fault ≡ NoMemory };

    fn from(_error: NoMemory) -> NextFault {
        NextFault::NoMemory
    }
}

/// What to do next on the way to a target, while these ids are down: the first row of the table that applies. Whoever
/// leads calls it with what it knows now, does what it answers, and calls it again. A step is to be proposed at once, to
/// the leader whose view this is. Ids that are down and members of neither configuration are ignored. Refused by
/// [`Strategy::Shortest`], for a target that raft leaves by itself, for a view of a leader that lacks the index of the
/// configuration or its own progress, and where the strategy has no path.
pub fn next(
    alloc: Global,
    strategy: Strategy,
    target: &Config<InlineIds>,
    down: &InlineIds,
    view: &View,
) -> Result<Action, NextFault>
    requires valid_now { is_valid view.now.conf_state ≡ true }
    requires valid_target { is_valid target.now ≡ true }
    ensures answer { IfOk result (λ action. action
        ≡ next_of strategy target.now down.now view.now) }
    ensures shortest { (result ≡ Err NextFault.Shortest) ↔ (strategy ≡ Strategy.Shortest) }
    ensures auto_leave_target { (result ≡ Err NextFault.AutoLeaveTarget)
        ↔ ((strategy ≢ Strategy.Shortest) × (target.now.auto_leave ≡ true)) }
    ensures no_conf_index { (result ≡ Err NextFault.NoConfIndex)
        ↔ ((strategy ≢ Strategy.Shortest) × (target.now.auto_leave ≡ false)
        × (view_spec.lacks_conf_index view.now ≡ true)) }
    ensures no_leader_progress { (result ≡ Err NextFault.NoLeaderProgress)
        ↔ ((strategy ≢ Strategy.Shortest) × (target.now.auto_leave ≡ false)
        × (view_spec.lacks_conf_index view.now ≡ false)
        × (view_spec.lacks_leader_progress view.now ≡ true)) }
    ensures no_voter_now { (result ≡ Err NextFault.NoVoterNow)
        ↔ (IsWellPosed strategy target.now view.now × (has_voter view.now.conf_state ≡ false)) }
    ensures no_voter_target { (result ≡ Err NextFault.NoVoterTarget)
        ↔ (IsWellPosed strategy target.now view.now × (has_voter view.now.conf_state ≡ true)
        × (has_voter target.now ≡ false)) }
    ensures joint_target { (result ≡ Err NextFault.JointTarget)
        ↔ (IsWellPosed strategy target.now view.now × (has_voter view.now.conf_state ≡ true)
        × (has_voter target.now ≡ true) × (has_path strategy view.now.conf_state target.now
        ≡ false)) }
{
    if strategy == Strategy::Shortest {
        return Err(NextFault::Shortest);
    }
    if target.auto_leave {
        return Err(NextFault::AutoLeaveTarget);
    }
    if lacks_conf_index(view) {
        return Err(NextFault::NoConfIndex);
    }
    if lacks_leader_progress(view) {
        return Err(NextFault::NoLeaderProgress);
    }
    match plan_by(alloc, strategy, &view.conf_state, target, Some(down)) {
        Ok(path) => Ok(answer_on(alloc, target, down, view, &path)?),
        Err(why) => Err(no_path(why)),
    }
}

// Why there is no answer, where there is no path.
fn no_path(why: NoPath) -> NextFault
    ensures { result ≡ spec.no_path why }
{
    match why {
        NoPath::NoVoterNow => NextFault::NoVoterNow,
        NoPath::NoVoterTarget => NextFault::NoVoterTarget,
        NoPath::JointTarget => NextFault::JointTarget,
        NoPath::NoMemory => NextFault::NoMemory,
    }
}

// What to do next on this path.
fn answer_on(
    alloc: Global,
    target: &Config<InlineIds>,
    down: &InlineIds,
    view: &View,
    path: &Path,
) -> Result<Action, NoMemory>
    ensures { IfOk result (λ action. action ≡ spec.answer_on target.now down.now view.now
        path.now) }
{
    let each = path.one_change_each(alloc)?;
    let stalls = stalls(alloc, &view.conf_state, path, down)?;
    let situation = situation_of(alloc, target, down, view, &each, stalls)?;
    answer_in(alloc, &situation, &each)
}

// The first row that applies.
fn answer_in(alloc: Global, situation: &Situation<'_>, path: &Path) -> Result<Action, NoMemory>
    ensures { IfOk result (λ action. action ≡ spec.answer_in (values_of situation.now) path.now) }
{
    if let Some(answer) = situation.answer_of_view(alloc)? {
        return Ok(answer);
    }
    if let Some(answer) = situation.answer_of_path(alloc)? {
        return Ok(answer);
    }
    if let Some(answer) = situation.answer_of_step()? {
        return Ok(answer);
    }
    propose_first(path)
}

// To propose the first step.
fn propose_first(path: &Path) -> Result<Action, NoMemory>
    ensures { IfOk result (λ action. action ≡ spec.propose_first path.now) }
{
    match path.step(0) {
        Some(step) => Ok(Action::Propose(copy_of(step)?)),
        None => Ok(Action::Done),
    }
}

// A copy of a step.
fn copy_of(step: &Step) -> Result<Step, NoMemory>
    ensures { IfOk result (λ copy. copy ≡ step.now) }
{
    match step {
        Step::Simple(changes) => Ok(Step::Simple(changes.try_clone()?)),
        Step::EnterJoint(auto_leave, changes) => {
            Ok(Step::EnterJoint(*auto_leave, changes.try_clone()?))
        }
        Step::LeaveJoint => Ok(Step::LeaveJoint),
    }
}
