//! The strategies by which a path is chosen: for few steps, or so that new voters can catch up before they vote.
ghost use Rattle.std.specs.Prelude.{◌≡◌, ◌↔◌, true, false, Err, IfOk, option_copied, option_map};
ghost use Rattle.conf_change.specs.Configuration.{is_same, is_valid, has_voter};
ghost use Rattle.conf_plan.specs.PathBy.{has_path, ids_down, path_by, KeepsPromises};
ghost use Rattle.conf_plan.specs.Run.{IsValidWithVoter};

use crate::path::Path;
use crate::planner::add_path;
use conf_change::Config;
use quorum_sets::{MemberSet, NoMemory};
use std::alloc::Global;
use thiserror::Error;

/// How a path is chosen: for as few steps as possible, or so that new voters can catch up before they vote.
#[derive(Clone, Copy, Debug, PartialEq, Eq)]
pub enum Strategy {
    /// As few steps as possible: the path is that of [`plan`](crate::plan).
    Shortest,
    /// New voters are learners first, so that they can catch up before they vote (Ongaro's dissertation, 4.2.1).
    LearnersFirst,
    /// One member changes at a time, as in etcd's server; no path enters a joint configuration.
    OneAtATime,
}

/// Why there is no path.
#[derive(Clone, Copy, Debug, PartialEq, Eq, Error)]
pub enum NoPath {
    /// The current configuration has no voter, so nothing can be committed, not even a change.
    #[error("no plan: the current configuration has no voter")]
    NoVoterNow,
    /// The target has no voter; no step leads to such a configuration.
    #[error("no plan: the target has no voter")]
    NoVoterTarget,
    /// The target is joint, and [`Strategy::OneAtATime`] does not enter joint configurations.
    #[error("no plan: the target is joint")]
    JointTarget,
    /// An allocation failed.
    #[error("out of memory")]
    NoMemory,
}

impl From<NoMemory> for NoPath {
    ghost use Rattle.conf_plan.specs.declared.strategy.NoPath.TheVariants.{NoMemory};

    ghost from_gives = { λ _ fault. fault ≡ NoMemory };

    fn from(_error: NoMemory) -> NoPath {
        NoPath::NoMemory
    }
}

/// The path from one configuration to another by a strategy, which keeps the strategy's promises (`KeepsPromises`).
/// Refused, before anything is allocated, if a configuration has no voter, and by [`Strategy::OneAtATime`] also if the
/// target is joint and is not the current configuration (own). [`Strategy::OneAtATime`] looks at the ids that are down,
/// if any are given: if both configurations commit without them, voters that are down retire first and join last.
pub fn plan_by<S: MemberSet>(
    alloc: Global,
    strategy: Strategy,
    now: &Config<S>,
    target: &Config<S>,
    down: Option<&S>,
) -> Result<Path, NoPath>
    requires valid_now { is_valid now.now ≡ true }
    requires valid_target { is_valid target.now ≡ true }
    ensures path { IfOk result (λ path. path
        ≡ path_by strategy
        (ids_down (option_map S.ids (option_copied down.entry))) now.now target.now) }
    ensures promises { IfOk result (λ path.
        KeepsPromises strategy
        (ids_down (option_map S.ids (option_copied down.entry))) now.now path target.now) }
    ensures no_voter_now { (result ≡ Err NoPath.NoVoterNow) ↔ (has_voter now.now ≡ false) }
    ensures no_voter_target { (result ≡ Err NoPath.NoVoterTarget)
        ↔ ((has_voter now.now ≡ true) × (has_voter target.now ≡ false)) }
    ensures joint_target { (result ≡ Err NoPath.JointTarget)
        ↔ ((has_voter now.now ≡ true) × (has_voter target.now ≡ true)
        × (has_path strategy now.now target.now ≡ false)) }
{
    if now.incoming.len() == 0 {
        return Err(NoPath::NoVoterNow);
    }
    if target.incoming.len() == 0 {
        return Err(NoPath::NoVoterTarget);
    }
    if now.same(target) {
        return Ok(Path::of_steps(Vec::new(alloc)));
    }
    if matches!(strategy, Strategy::OneAtATime) && target.is_joint() {
        return Err(NoPath::JointTarget);
    }
    match down {
        Some(down) => Ok(path_to(alloc, strategy, now, target, down)?),
        None => Ok(path_to(alloc, strategy, now, target, &S::empty(alloc))?),
    }
}

// The path to another configuration by a strategy, while these ids are down.
fn path_to<S: MemberSet>(
    alloc: Global,
    strategy: Strategy,
    now: &Config<S>,
    target: &Config<S>,
    down: &S,
) -> Result<Path, NoMemory>
    requires now { IsValidWithVoter now.now }
    requires target { IsValidWithVoter target.now }
    requires other { is_same now.now target.now ≡ false }
    ensures { IfOk result (λ path. path ≡ path_by strategy (S.ids down.now) now.now target.now) }
{
    let mut steps = Vec::new(alloc);
    add_path(alloc, strategy, &mut steps, now, target, down)?;
    Ok(Path::of_steps(steps))
}
