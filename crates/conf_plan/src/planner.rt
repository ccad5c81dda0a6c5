//! Making a plan. Its steps depend on which of the two configurations is joint and on how many voters differ:
//!
//! ```text
//! the two are equal                                      nothing to do
//! the current one is joint                               leave-joint, then by this table from there
//! the target is not joint, at most one voter differs     simple
//! the target is not joint, more voters differ            enter-joint, leave-joint
//! the target is joint, with the current voters outgoing  enter-joint
//! the target is joint, with other voters outgoing        the steps that make these the voters, then enter-joint
//! ```
//!
//! So the longest plan has four steps: leave-joint, enter-joint, leave-joint, enter-joint.
ghost use Rattle.std.specs.Prelude.{◌≡◌, ◌↔◌, true, false, [], ◌∷◌, Err, IfOk, OnOk};
ghost use Rattle.conf_change.specs.Configuration.{is_joint, is_same, is_valid, has_voter};
ghost use Rattle.conf_plan.specs.PathBy.{from_single_by, path_by};
ghost use Rattle.conf_plan.specs.Planned.{single_steps, entering_step, joint_steps, planned_from_single, planned};
ghost use Rattle.conf_plan.specs.Best.{IsBest};
ghost use Rattle.conf_plan.specs.Run.{IsValidWithVoter};
ghost use Rattle.conf_plan.specs.AddedSteps.{IsAdded};

use crate::learners_first::add_learners_first;
use crate::moves::moves_to;
use crate::not_joint::NotJoint;
use crate::one_at_a_time::add_one_at_a_time;
use crate::shared_members::shared_members;
use crate::step_list::Plan;
use crate::strategy::{NoPath, Strategy, plan_by};
use conf_change::{Changes, Config, Step, has_same_ids, union};
use quorum_sets::{MemberSet, NoMemory, symdiff};
use std::alloc::Global;
use thiserror::Error;

/// Why there is no plan.
#[derive(Clone, Copy, Debug, PartialEq, Eq, Error)]
pub enum PlanFault {
    /// The current configuration has no voter, so nothing can be committed, not even a change.
    #[error("no plan: the current configuration has no voter")]
    NoVoterNow,
    /// The target has no voter; no step leads to such a configuration.
    #[error("no plan: the target has no voter")]
    NoVoterTarget,
    /// An allocation failed.
    #[error("out of memory")]
    NoMemory,
}

impl From<NoMemory> for PlanFault {
    ghost use Rattle.conf_plan.specs.declared.planner.PlanFault.TheVariants.{NoMemory};

    ghost from_gives = { λ _ fault. fault ≡ NoMemory };

    fn from(_error: NoMemory) -> PlanFault {
        PlanFault::NoMemory
    }
}

/// The plan from one configuration to another: the best steps that lead there. No other steps are fewer, preserve the
/// progress of a member that the plan resets, or name an id in fewer changes, and the quorums before and after each
/// step overlap (own). Logs are not considered: a new voter begins with an empty one. By another [`Strategy`] it can
/// catch up before it votes. There is a plan between any two configurations with voters; a configuration without voters
/// is refused before anything is allocated.
pub fn plan<S: MemberSet>(
    alloc: Global,
    now: &Config<S>,
    target: &Config<S>,
) -> Result<Plan, PlanFault>
    requires valid_now { is_valid now.now ≡ true }
    requires valid_target { is_valid target.now ≡ true }
    ensures planned { IfOk result (λ plan. plan ≡ planned now.now target.now) }
    ensures best { IfOk result (λ plan. IsBest now.now plan target.now) }
    ensures no_voter_now { (result ≡ Err PlanFault.NoVoterNow) ↔ (has_voter now.now ≡ false) }
    ensures no_voter_target { (result ≡ Err PlanFault.NoVoterTarget)
        ↔ ((has_voter now.now ≡ true) × (has_voter target.now ≡ false)) }
{
    let none = S::empty(alloc);
    match plan_by(alloc, Strategy::Shortest, now, target, Some(&none)) {
        Ok(path) => Ok(Plan::of_path(path)),
        Err(NoPath::NoVoterNow) => Err(PlanFault::NoVoterNow),
        Err(NoPath::NoVoterTarget) => Err(PlanFault::NoVoterTarget),
        Err(NoPath::JointTarget) => unreachable!(),
        Err(NoPath::NoMemory) => Err(PlanFault::NoMemory),
    }
}

// Appends the path from a configuration to another one by a strategy, while these ids are down. Every path out of a
// joint configuration begins with leaving it.
pub(crate) fn add_path<S: MemberSet>(
    alloc: Global,
    strategy: Strategy,
    steps: &mut Vec<Step>,
    now: &Config<S>,
    target: &Config<S>,
    down: &S,
) -> Result<(), NoMemory>
    requires now { IsValidWithVoter now.now }
    requires target { IsValidWithVoter target.now }
    requires other { is_same now.now target.now ≡ false }
    ensures { OnOk result (IsAdded steps.old.items
        (path_by strategy (S.ids down.now) now.now target.now) steps.new.items) }
{
    if now.is_joint() {
        steps.push(Step::LeaveJoint)?;
        let learners = union(&now.learners, &now.learners_next)?;
        let start = NotJoint {
            incoming: &now.incoming,
            learners: &learners,
        };
        return add_from_single_by(alloc, strategy, steps, &start, target, down);
    }
    let start = NotJoint {
        incoming: &now.incoming,
        learners: &now.learners,
    };
    add_from_single_by(alloc, strategy, steps, &start, target, down)
}

// Appends the path from a configuration that is not joint to the target by a strategy.
fn add_from_single_by<S: MemberSet>(
    alloc: Global,
    strategy: Strategy,
    steps: &mut Vec<Step>,
    start: &NotJoint<S>,
    target: &Config<S>,
    down: &S,
) -> Result<(), NoMemory>
    requires start { IsValidWithVoter start.now }
    requires target { IsValidWithVoter target.now }
    ensures { OnOk result (IsAdded steps.old.items
        (from_single_by strategy (S.ids down.now) start.now target.now) steps.new.items) }
{
    match strategy {
        Strategy::Shortest => add_from_single(alloc, steps, start, target),
        Strategy::LearnersFirst => add_learners_first(alloc, steps, start, target),
        Strategy::OneAtATime => add_one_at_a_time(alloc, steps, start, target, down),
    }
}

// Appends the plan from a configuration that is not joint to the target.
pub(crate) fn add_from_single<S: MemberSet>(
    alloc: Global,
    steps: &mut Vec<Step>,
    start: &NotJoint<S>,
    target: &Config<S>,
) -> Result<(), NoMemory>
    requires start { IsValidWithVoter start.now }
    requires target { IsValidWithVoter target.now }
    ensures { OnOk result (IsAdded steps.old.items
        (planned_from_single start.now target.now) steps.new.items) }
{
    if is_same(alloc, start, target) {
        Ok(())
    } else if target.is_joint() {
        add_joint_steps(alloc, steps, start, target)
    } else {
        add_single_steps(alloc, steps, start, &target.incoming, &target.learners)
    }
}

// Whether a configuration that is not joint is the target.
fn is_same<S: MemberSet>(alloc: Global, start: &NotJoint<S>, target: &Config<S>) -> bool
    ensures { result ≡ is_same start.now target.now }
{
    let none = S::empty(alloc);
    has_same_ids(start.incoming, &target.incoming)
        && has_same_ids(&none, &target.outgoing)
        && has_same_ids(start.learners, &target.learners)
        && has_same_ids(&none, &target.learners_next)
        && !target.auto_leave
}

// Appends the plan from a configuration that is not joint to a joint one. Entering a joint configuration makes the
// incoming voters the outgoing ones, so the target's outgoing voters have to become the incoming voters first.
fn add_joint_steps<S: MemberSet>(
    alloc: Global,
    steps: &mut Vec<Step>,
    start: &NotJoint<S>,
    target: &Config<S>,
) -> Result<(), NoMemory>
    requires start { IsValidWithVoter start.now }
    requires target { IsValidWithVoter target.now }
    requires joint { is_joint target.now ≡ true }
    ensures { OnOk result
        (IsAdded steps.old.items (joint_steps start.now target.now) steps.new.items) }
{
    if has_same_ids(start.incoming, &target.outgoing) {
        return add_entering_step(alloc, steps, start, target);
    }
    // The inserted steps make the target's outgoing voters the incoming ones, with the shared members as learners.
    let shared = shared_members(alloc, start, target)?;
    add_single_steps(alloc, steps, start, &target.outgoing, &shared)?;
    let between = NotJoint {
        incoming: &target.outgoing,
        learners: &shared,
    };
    add_entering_step(alloc, steps, &between, target)
}

// Appends the step into a joint target from a configuration whose incoming voters are the target's outgoing ones.
fn add_entering_step<S: MemberSet>(
    alloc: Global,
    steps: &mut Vec<Step>,
    start: &NotJoint<S>,
    target: &Config<S>,
) -> Result<(), NoMemory>
    ensures { OnOk result (IsAdded steps.old.items
        (entering_step start.now target.now ∷ []) steps.new.items) }
{
    let to_learners = union(&target.learners, &target.learners_next)?;
    let changes = moves_to(
        alloc,
        start.incoming,
        start.learners,
        &target.incoming,
        &to_learners,
    )?;
    steps.push(Step::EnterJoint(target.auto_leave, Changes::from(changes)))?;
    Ok(())
}

// Appends the steps from a configuration that is not joint to the one with these voters and learners: one simple step
// if at most one voter differs, and through a joint configuration otherwise.
pub(crate) fn add_single_steps<S: MemberSet>(
    alloc: Global,
    steps: &mut Vec<Step>,
    start: &NotJoint<S>,
    to_voters: &S,
    to_learners: &S,
) -> Result<(), NoMemory>
    ensures { OnOk result (IsAdded steps.old.items
        (single_steps start.now (S.ids to_voters.now) (S.ids to_learners.now)) steps.new.items) }
{
    let changes = Changes::from(moves_to(
        alloc,
        start.incoming,
        start.learners,
        to_voters,
        to_learners,
    )?);
    if symdiff(start.incoming, to_voters) <= 1 {
        steps.push(Step::Simple(changes))?;
    } else {
        steps.push(Step::EnterJoint(false, changes))?;
        steps.push(Step::LeaveJoint)?;
    }
    Ok(())
}
