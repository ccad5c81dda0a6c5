//! The members that have to catch up. A new voter with an empty log cannot acknowledge new entries until it has the old
//! ones, so until then it is as if it were down (Ongaro's dissertation, section 4.2.1).
ghost use Rattle.std.specs.Prelude.{◌≡◌, ℕ, ◌||◌, IfOk, OnOk};
ghost use Rattle.quorum_sets.specs.Ids.{has};
ghost use Rattle.conf_change.specs.Change.{removes};
ghost use Rattle.conf_change.specs.Step.{changes_of};
ghost use Rattle.conf_change.specs.Transition.{step_of};
ghost use Rattle.conf_change.specs.declared.step.Step.{Step};
ghost use Rattle.conf_plan.specs.OnTheWay.{catching_up};

use crate::filtered::filtered;
use conf_change::{Change, Config, Kind, Step, StepKind};
use quorum_sets::{MemberSet, NoMemory};
use std::alloc::Global;

/// The members after a step that do not keep their progress in it: new ones, and those that the step removes and adds
/// again, unless they are outgoing voters. They begin with an empty log, so wait until they have caught up before the
/// next step (own).
pub fn catching_up<S: MemberSet>(
    alloc: Global,
    before: &Config<S>,
    step: &Step,
    after: &Config<S>,
) -> Result<S, NoMemory>
    ensures { IfOk result (λ ids. S.ids ids ≡ catching_up before.now step.now after.now) }
{
    catching_up_after(alloc, before, step.changes(), after)
}

/// As [`catching_up`], for the step of this kind with these changes; leaving a joint configuration ignores them.
pub fn catching_up_by<S: MemberSet>(
    alloc: Global,
    before: &Config<S>,
    kind: StepKind,
    changes: &[Change],
    after: &Config<S>,
) -> Result<S, NoMemory>
    ensures { IfOk result
        (λ ids. S.ids ids ≡ catching_up before.now (step_of kind changes.now) after.now) }
{
    let changes = match kind {
        StepKind::Simple | StepKind::Enter(_) => changes,
        StepKind::Leave => &[],
    };
    catching_up_after(alloc, before, changes, after)
}

// The members after a step with these changes that do not keep their progress in it.
fn catching_up_after<S: MemberSet>(
    alloc: Global,
    before: &Config<S>,
    changes: &[Change],
    after: &Config<S>,
) -> Result<S, NoMemory>
    ensures { IfOk result (λ ids. (step : Step) → changes_of step ≡ changes.now
        → S.ids ids ≡ catching_up before.now step after.now) }
{
    let members = after.members()?;
    let mut removed = S::empty(alloc);
    add_removed(&mut removed, changes)?;
    filtered(alloc, &members, |id| {
        !before.is_member(id) || (removed.contains(id) && !after.outgoing.contains(id))
    })
}

// Adds the ids that the changes remove.
fn add_removed<S: MemberSet>(removed: &mut S, changes: &[Change]) -> Result<(), NoMemory>
    ensures { OnOk result ((id : ℕ)
        → has (S.ids removed.new) id ≡ (has (S.ids removed.old) id || removes changes.now id)) }
{
    for change in changes {
        if matches!(change.kind, Kind::Remove) {
            removed.insert(change.id)?;
        }
    }
    Ok(())
}
