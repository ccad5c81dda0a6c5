//! The changes from the voters and learners of a configuration to those of a target. An id that keeps its role has
//! none:
//!
//! ```text
//! (1 2 3) to (1 2 4) learners=(3)   l3 v4
//! ```
ghost use Rattle.std.specs.Prelude.{◌≡◌, ◌<◌, ◌^◌, IfOk};
ghost use Rattle.std.specs.List.{All};
ghost use Rattle.quorum_sets.specs.Ids.{ascending, union};
ghost use Rattle.conf_plan.specs.Planned.{kind_by, moves, single_with};

use conf_change::{Change, Kind};
use quorum_sets::{IdList, MemberSet, NoMemory, add_ids, contains_from};
use smallvec::SmallVec;
use std::alloc::Global;

// The initial capacity of a list of changes.
const INITIAL_CAPACITY: usize = 16;

// The changes from the current voters and learners to those of the target, by ascending id. Each id of the four sets is
// looked up in all of them.
pub(crate) fn moves_to<S: MemberSet>(
    alloc: Global,
    incoming: &S,
    learners: &S,
    to_voters: &S,
    to_learners: &S,
) -> Result<Vec<Change>, NoMemory>
    ensures moves { IfOk result (λ changes. changes.items
        ≡ moves (single_with (S.ids incoming.now) (S.ids learners.now)) (S.ids to_voters.now)
        (S.ids to_learners.now)) }
    ensures u64_ids { IfOk result (λ changes. All (λ change. change.id < 2 ^ 64) changes.items) }
{
    let ids = ids_of_all(alloc, to_voters, to_learners, incoming, learners)?;
    let mut changes = Vec::with_capacity(alloc, INITIAL_CAPACITY)?;
    let (mut at_to_voters, mut at_to_learners, mut at_incoming, mut at_learners) = (0, 0, 0, 0);
    for id in ids.as_slice() {
        let id = *id;
        let target_voter = contains_from(to_voters, &mut at_to_voters, id);
        let target_learner = contains_from(to_learners, &mut at_to_learners, id);
        let voter = contains_from(incoming, &mut at_incoming, id);
        let learner = contains_from(learners, &mut at_learners, id);
        if let Some(kind) = kind_of_move(target_voter, target_learner, voter, learner) {
            changes.push(Change { kind, id })?;
        }
    }
    Ok(changes)
}

// The ids of four sets in ascending order, each once. One list of all of them is sorted once; the stable sort merges the sets,
// which are sorted already.
fn ids_of_all<S: MemberSet>(alloc: Global, a: &S, b: &S, c: &S, d: &S) -> Result<IdList, NoMemory>
    ensures { IfOk result (λ ids. ids.items ≡ ascending
        (union (union (S.ids a.now) (S.ids b.now)) (union (S.ids c.now) (S.ids d.now)))) }
{
    let mut ids = SmallVec::new(alloc);
    add_ids(&mut ids, a)?;
    add_ids(&mut ids, b)?;
    add_ids(&mut ids, c)?;
    add_ids(&mut ids, d)?;
    ids.as_mut_slice().sort(alloc)?;
    ids.dedup();
    Ok(ids)
}

// The kind of change that an id needs, if any, by its roles in the target and now. A voter that is a learner in the
// target becomes a learner; a member that is neither there is removed.
pub(crate) fn kind_of_move(
    target_voter: bool,
    target_learner: bool,
    voter: bool,
    learner: bool,
) -> Option<Kind>
    ensures { result ≡ kind_by target_voter target_learner voter learner }
{
    if target_voter {
        if voter { None } else { Some(Kind::Voter) }
    } else if target_learner {
        if learner { None } else { Some(Kind::Learner) }
    } else if voter || learner {
        Some(Kind::Remove)
    } else {
        None
    }
}
