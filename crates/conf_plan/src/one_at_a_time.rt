//! The path on which one member changes at a time, as etcd's server changes its members. From (1 2 3) to (3 4 5):
//!
//! ```text
//! simple l4, simple v4, simple r1     4 joins, and 1 retires
//! simple l5, simple v5, simple r2     5 joins, and 2 retires
//! ```
//!
//! A voter joins before another retires, so at no point are fewer failures tolerated than at the weaker end. Voters that
//! are down retire first, since etcd's server adds no member while they cannot be reached, and join last:
//!
//! ```text
//! simple r1                           1, which is down, retires
//! simple l4, simple v4, simple r2     4 joins, and 2 retires
//! simple l5, simple v5                5 joins
//! ```
//!
//! etcd's server takes one learner at a time. So learners leave, or are promoted, before others come. From (1 2 3) with
//! the learners 8 and 9 to (1 2 3 4 9):
//!
//! ```text
//! simple r8                           8 leaves
//! simple v9                           9 joins, which is a learner already
//! simple l4, simple v4                4 joins
//! ```
ghost use Rattle.std.specs.Prelude.{◌≡◌, ℕ, Bool, not, [], ◌++◌, flat_map, IfOk, OnOk, if◌then◌else◌};
ghost use Rattle.std.specs.List.{cons_option};
ghost use Rattle.quorum_sets.specs.Ids.{has};
ghost use Rattle.conf_plan.specs.OneAtATime.{steps_of, joining, retiring, in_turn, order, one_at_a_time_from_single};
ghost use Rattle.conf_plan.specs.AddedSteps.{IsAdded};

use crate::filtered::add_filtered;
use crate::moves::kind_of_move;
use crate::not_joint::NotJoint;
use crate::one_change_each::add_change;
use conf_change::{Config, Kind, Step};
use quorum_sets::{IdList, MemberSet, NoMemory, commits_without};
use smallvec::SmallVec;
use std::alloc::Global;

// Appends the steps from a configuration that is not joint to the target, in the order for the ids that are down, if
// both configurations commit without them.
pub(crate) fn add_one_at_a_time<S: MemberSet>(
    alloc: Global,
    steps: &mut Vec<Step>,
    start: &NotJoint<S>,
    target: &Config<S>,
    down: &S,
) -> Result<(), NoMemory>
    ensures { OnOk result (IsAdded steps.old.items
        (one_at_a_time_from_single (S.ids down.now) start.now target.now) steps.new.items) }
{
    let none = S::empty(alloc);
    let both_commit = commits_without((start.incoming, &none), down)
        && commits_without((&target.incoming, &target.outgoing), down);
    add_in_order(
        alloc,
        steps,
        start,
        target,
        if both_commit { down } else { &none },
    )
}

// Appends the steps of each id in the order for these ids that are down.
fn add_in_order<S: MemberSet>(
    alloc: Global,
    steps: &mut Vec<Step>,
    start: &NotJoint<S>,
    target: &Config<S>,
    down: &S,
) -> Result<(), NoMemory>
    ensures { OnOk result (IsAdded steps.old.items
        (flat_map (steps_of start.now target.now) (order (S.ids down.now) start.now target.now))
        steps.new.items) }
{
    let ids = ids_in_order(alloc, start, target, down)?;
    for id in ids.as_slice() {
        add_steps_of(alloc, steps, start, target, *id)?;
    }
    Ok(())
}

// The ids in the order in which they get their roles in the target.
fn ids_in_order<S: MemberSet>(
    alloc: Global,
    start: &NotJoint<S>,
    target: &Config<S>,
    down: &S,
) -> Result<IdList, NoMemory>
    ensures { IfOk result (λ ids. ids.items ≡ order (S.ids down.now) start.now target.now) }
{
    let mut ids = SmallVec::new(alloc);
    add_retiring(&mut ids, start, target, down, true)?;
    add_filtered(&mut ids, start.learners, |id| {
        !(start.incoming.contains(id)
            || target.incoming.contains(id)
            || target.learners.contains(id))
    })?;
    add_moves_of_up(alloc, &mut ids, start, target, down)?;
    add_joining(&mut ids, start, target, down, true)?;
    add_filtered(&mut ids, &target.learners, |id| {
        !(start.incoming.contains(id)
            || target.incoming.contains(id)
            || start.learners.contains(id))
    })?;
    Ok(ids)
}

// Appends the ids that are not down and have to become incoming voters, and those that have to stop being ones, in turn.
fn add_moves_of_up<S: MemberSet>(
    alloc: Global,
    list: &mut IdList,
    start: &NotJoint<S>,
    target: &Config<S>,
    down: &S,
) -> Result<(), NoMemory>
    ensures { let up : ℕ → Bool = λ id. not (has (S.ids down.now) id) in
        OnOk result (list.new.items ≡ list.old.items
        ++ in_turn (joining up start.now target.now) (retiring up start.now target.now)) }
{
    let mut joins = SmallVec::new(alloc);
    add_joining(&mut joins, start, target, down, false)?;
    let mut retires = SmallVec::new(alloc);
    add_retiring(&mut retires, start, target, down, false)?;
    add_in_turn(list, joins.as_slice(), retires.as_slice())
}

// Appends the ids that have to become incoming voters, of those that are down or of the others: the learners among
// them first, and each part in ascending order.
fn add_joining<S: MemberSet>(
    list: &mut IdList,
    start: &NotJoint<S>,
    target: &Config<S>,
    down: &S,
    are_down: bool,
) -> Result<(), NoMemory>
    ensures { OnOk result (list.new.items ≡ list.old.items
        ++ joining (λ id. if are_down then has (S.ids down.now) id
        else not (has (S.ids down.now) id)) start.now target.now) }
{
    add_filtered(list, &target.incoming, |id| {
        start.learners.contains(id) && !start.incoming.contains(id) && down.contains(id) == are_down
    })?;
    add_filtered(list, &target.incoming, |id| {
        !start.learners.contains(id)
            && !start.incoming.contains(id)
            && down.contains(id) == are_down
    })
}

// Appends the ids that have to stop being incoming voters, of those that are down or of the others, in ascending order.
fn add_retiring<S: MemberSet>(
    list: &mut IdList,
    start: &NotJoint<S>,
    target: &Config<S>,
    down: &S,
    are_down: bool,
) -> Result<(), NoMemory>
    ensures { OnOk result (list.new.items ≡ list.old.items
        ++ retiring (λ id. if are_down then has (S.ids down.now) id
        else not (has (S.ids down.now) id)) start.now target.now) }
{
    add_filtered(list, start.incoming, |id| {
        !target.incoming.contains(id) && down.contains(id) == are_down
    })
}

// Appends ids that join and ids that retire in turn; when one list ends, the rest of the other follows.
fn add_in_turn(list: &mut IdList, joins: &[u64], retires: &[u64]) -> Result<(), NoMemory>
    ensures { OnOk result (list.new.items ≡ list.old.items ++ in_turn joins.now retires.now) }
{
    for index in 0..joins.len().max(retires.len()) {
        add_if_any(list, joins.get(index).copied())?;
        add_if_any(list, retires.get(index).copied())?;
    }
    Ok(())
}

// Appends an id, if there is one.
fn add_if_any(list: &mut IdList, id: Option<u64>) -> Result<(), NoMemory>
    ensures { OnOk result (list.new.items ≡ list.old.items ++ cons_option id []) }
{
    if let Some(id) = id {
        list.push(id)?;
    }
    Ok(())
}

// Appends the steps by which an id gets its role in the target. If it becomes a voter and is not a member, it is a
// learner first, so that it can catch up.
fn add_steps_of<S: MemberSet>(
    alloc: Global,
    steps: &mut Vec<Step>,
    start: &NotJoint<S>,
    target: &Config<S>,
    id: u64,
) -> Result<(), NoMemory>
    ensures { OnOk result
        (IsAdded steps.old.items (steps_of start.now target.now id) steps.new.items) }
{
    let votes = start.incoming.contains(id);
    let learns = start.learners.contains(id);
    let will_vote = target.incoming.contains(id);
    if will_vote && !votes && !learns {
        add_change(alloc, steps, Kind::Learner, id)?;
    }
    match kind_of_move(will_vote, target.learners.contains(id), votes, learns) {
        Some(kind) => add_change(alloc, steps, kind, id),
        None => Ok(()),
    }
}
