//! Simple steps of one change each.
ghost use Rattle.std.specs.Prelude.{[], ◌∷◌, OnOk};
ghost use Rattle.std.specs.List.{All};
ghost use Rattle.conf_plan.specs.OneAtATime.{one_change};
ghost use Rattle.conf_plan.specs.OneChangeEach.{each_change, one_change_each};
ghost use Rattle.conf_plan.specs.PlanSteps.{HasU64Ids};
ghost use Rattle.conf_plan.specs.AddedSteps.{IsAdded};

use conf_change::{Change, Changes, Kind, Step};
use quorum_sets::NoMemory;
use std::alloc::Global;

// Appends the steps, each simple one as steps of one change.
pub(crate) fn add_one_change_each(
    alloc: Global,
    steps: &mut Vec<Step>,
    of: &[Step],
) -> Result<(), NoMemory>
    requires { All HasU64Ids of.now }
    ensures { OnOk result (IsAdded steps.old.items (one_change_each of.now) steps.new.items) }
{
    for step in of {
        add_each_change(alloc, steps, step)?;
    }
    Ok(())
}

// Appends a simple step for each change of a simple step; another step is appended as it is.
fn add_each_change(alloc: Global, steps: &mut Vec<Step>, step: &Step) -> Result<(), NoMemory>
    requires { HasU64Ids step.now }
    ensures { OnOk result (IsAdded steps.old.items (each_change step.now) steps.new.items) }
{
    match step {
        Step::Simple(changes) => {
            for change in changes.as_slice() {
                add_change(alloc, steps, change.kind, change.id)?;
            }
            Ok(())
        }
        Step::EnterJoint(auto_leave, changes) => {
            let changes = changes.try_clone()?;
            steps.push(Step::EnterJoint(*auto_leave, changes))?;
            Ok(())
        }
        Step::LeaveJoint => {
            steps.push(Step::LeaveJoint)?;
            Ok(())
        }
    }
}

// Appends a simple step of one change.
pub(crate) fn add_change(
    alloc: Global,
    steps: &mut Vec<Step>,
    kind: Kind,
    id: u64,
) -> Result<(), NoMemory>
    ensures { OnOk result (IsAdded steps.old.items (one_change kind id ∷ []) steps.new.items) }
{
    let mut changes = Vec::new(alloc);
    changes.push(Change { kind, id })?;
    steps.push(Step::Simple(Changes::from(changes)))?;
    Ok(())
}
