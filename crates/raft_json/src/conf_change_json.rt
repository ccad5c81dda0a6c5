//! The JSON of the change to propose to etcd for a step.
//!
//! ```text
//! enter-joint autoleave=true v4
//! {"changes":[{"node_id":4,"type":"ConfChangeAddNode"}],"transition":"ConfChangeTransitionJointImplicit"}
//! ```
ghost use Rattle.std.specs.Prelude.{◌≡◌, IfOk};
ghost use Rattle.serde_json.specs.View.{view};
ghost use Rattle.raft_json.specs.ConfChangeJson as spec;
ghost use Rattle.raft_json.specs.ConfChangeJson.{conf_change_json, change_json, changes_json};
ghost use Rattle.raft_json.specs.Proposal as proposal;
ghost use Rattle.raft_json.specs.Proposal.{proposed_changes};

use crate::proposal::{proposed_update, transition_of};
use conf_change::{Change, Config, Kind, Step, Transition};
use quorum_sets::{MemberSet, NoMemory};
use serde_json::{Map, Value, put};
use std::alloc::Global;

/// The `raftpb.ConfChangeV2` to propose for a step from a configuration. By it etcd's raft ends in the configuration
/// after the step, or with auto-leave in the one that leaving that gives (the module `laws`). [`transition_of`] and
/// [`proposed_update`] have its parts.
pub fn conf_change_value<S: MemberSet>(
    alloc: Global,
    before: &Config<S>,
    step: &Step,
) -> Result<Value, NoMemory>
    ensures { IfOk result (λ v. view v
        ≡ conf_change_json (proposal.transition_of step.now)
        (proposed_changes before.now step.now)) }
{
    let changes = proposed(alloc, before, step)?;
    let transition = Value::try_from_str(alloc, transition_name(transition_of(step)))?;
    let mut members = Map::new(alloc);
    put(&mut members, alloc, "changes", changes)?;
    put(&mut members, alloc, "transition", transition)?;
    Ok(Value::Object(members))
}

// The changes to propose for a step: its own, or the update of the least incoming voter.
fn proposed<S: MemberSet>(alloc: Global, before: &Config<S>, step: &Step) -> Result<Value, NoMemory>
    ensures { IfOk result (λ v. view v ≡ changes_json (proposed_changes before.now step.now)) }
{
    match proposed_update(before, step) {
        Some(update) => changes_value(alloc, &[update]),
        None => changes_value(alloc, step.changes()),
    }
}

fn changes_value(alloc: Global, changes: &[Change]) -> Result<Value, NoMemory>
    ensures { IfOk result (λ v. view v ≡ changes_json changes.now) }
{
    let mut items = Vec::with_capacity(alloc, changes.len())?;
    for change in changes {
        items.push(change_value(alloc, *change)?)?;
    }
    Ok(Value::Array(items))
}

fn change_value(alloc: Global, change: Change) -> Result<Value, NoMemory>
    ensures { IfOk result (λ v. view v ≡ change_json change) }
{
    let kind = Value::try_from_str(alloc, kind_name(change.kind))?;
    let mut members = Map::new(alloc);
    put(&mut members, alloc, "node_id", Value::from(change.id))?;
    put(&mut members, alloc, "type", kind)?;
    Ok(Value::Object(members))
}

// The name of a transition in Go (`raftpb.ConfChangeTransition`).
fn transition_name(transition: Transition) -> &'static str
    ensures { result.now ≡ spec.transition_name transition }
{
    match transition {
        Transition::Auto => "ConfChangeTransitionAuto",
        Transition::Implicit => "ConfChangeTransitionJointImplicit",
        Transition::Explicit => "ConfChangeTransitionJointExplicit",
    }
}

// The name of a kind of change in Go (`raftpb.ConfChangeType`).
fn kind_name(kind: Kind) -> &'static str
    ensures { result.now ≡ spec.kind_name kind }
{
    match kind {
        Kind::Voter => "ConfChangeAddNode",
        Kind::Learner => "ConfChangeAddLearnerNode",
        Kind::Remove => "ConfChangeRemoveNode",
        Kind::Update => "ConfChangeUpdateNode",
    }
}
