//! Applying a path: a changer takes its steps in order.
ghost use Rattle.std.specs.Prelude.{◌≡◌, ℕ, OnOk, IfErr, List};
ghost use Rattle.conf_change.specs.Configuration.{Configuration};
ghost use Rattle.conf_change.specs.Changer.{IsSound};
ghost use Rattle.conf_change.specs.declared.step.Step.{Step};
ghost use Rattle.conf_plan.specs.Best.{IsBest, Preserves};
ghost use Rattle.conf_plan.specs.Planned.{planned};
ghost use Rattle.conf_plan.specs.Run.{IsRun, IsValidWithVoter, Takes, StopsAt, HasKeptProgress};

use crate::path::Path;
use crate::step_list::Plan;
use conf_change::{Changer, Refused};
use quorum_sets::MemberSet;
use thiserror::Error;

/// The step at which a path stopped, and why. If the second of three steps is refused, the first stays in effect.
#[derive(Clone, Copy, Debug, PartialEq, Eq, Error)]
#[error("step {step}: {refused}")]
pub struct StepRefused {
    /// The number of the step, counted from 1.
    pub step: usize,
    /// Why it was refused.
    pub refused: Refused,
}

/// Takes the steps of a plan as [`apply_path`] does. A plan that [`plan`](crate::plan) made for the changer's
/// configuration is the best one: no other steps to the same target are fewer, preserve the progress of a member that it
/// resets, or name an id in fewer changes (own).
pub fn apply_plan<S: MemberSet>(changer: &mut Changer<S>, plan: &Plan) -> Result<(), StepRefused>
    ensures taken { OnOk result (Takes changer.old plan.now changer.new) }
    ensures stopped { IfErr result
        (λ stop. StopsAt changer.old plan.now stop.step stop.refused changer.new) }
    ensures sound { IsSound changer.new.tracker }
    ensures reached { OnOk result
        ((target : Configuration) → IsRun changer.old.tracker.config plan.now target
        → changer.new.tracker.config ≡ target) }
    ensures preserved { OnOk result ((id : ℕ)
        → Preserves changer.old.tracker.config plan.now changer.new.tracker.config id
        → HasKeptProgress changer.old changer.new id) }
    ensures preserving { OnOk result ((target : Configuration) (other : List Step) (id : ℕ)
        → plan.now ≡ planned changer.old.tracker.config target
        → Preserves changer.old.tracker.config other target id
        → HasKeptProgress changer.old changer.new id) }
    ensures best { OnOk result
        ((target : Configuration) → plan.now ≡ planned changer.old.tracker.config target
        → IsValidWithVoter changer.old.tracker.config
        → IsValidWithVoter target
        → IsBest changer.old.tracker.config plan.now changer.new.tracker.config) }
    ensures memory_alone { IfErr result (λ stop. (target : Configuration)
        → IsRun changer.old.tracker.config plan.now target → stop.refused ≡ Refused.NoMemory) }
{
    let _tracker = changer.tracker();
    apply_path(changer, plan)
}

/// Takes the steps of a path in order and stops at the first that is refused; the steps before it stay in effect. A
/// path that leads on from the changer's configuration stops only if memory runs out, and the members whose progress it
/// preserves keep their match and next. A path may be applied in parts, and then ends as if it was applied at once.
pub fn apply_path<S: MemberSet>(changer: &mut Changer<S>, path: &Path) -> Result<(), StepRefused>
    ensures taken { OnOk result (Takes changer.old path.now changer.new) }
    ensures stopped { IfErr result
        (λ stop. StopsAt changer.old path.now stop.step stop.refused changer.new) }
    ensures sound { IsSound changer.new.tracker }
    ensures reached { OnOk result
        ((target : Configuration) → IsRun changer.old.tracker.config path.now target
        → changer.new.tracker.config ≡ target) }
    ensures preserved { OnOk result ((id : ℕ)
        → Preserves changer.old.tracker.config path.now changer.new.tracker.config id
        → HasKeptProgress changer.old changer.new id) }
    ensures memory_alone { IfErr result (λ stop. (target : Configuration)
        → IsRun changer.old.tracker.config path.now target → stop.refused ≡ Refused.NoMemory) }
{
    let _tracker = changer.tracker();
    for index in 0..path.len() {
        if let Some(step) = path.step(index) {
            match changer.step(step) {
                Ok(()) => {}
                Err(refused) => {
                    return Err(StepRefused {
                        step: index + 1,
                        refused,
                    });
                }
            }
        }
    }
    Ok(())
}
