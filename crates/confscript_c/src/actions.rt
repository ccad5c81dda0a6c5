//! Actions in numbers: the number of the action, that of the reason, how many ids follow, and the ids, or for a proposal
//! its stage. From `(1 2 3)`:
//!
//! ```text
//! 0, 0, 1,  4                                           start 4
//! 4, 5, 1,  4                                           wait for 4, which has not caught up
//! 3, 0, 0,  0, 1, 0, 1, 1,  3, 4,  0, 3, 0, 1, 0, 1,  1, 2, 3,  4,  4     propose the learner 4
//! 6, 0, 0                                               done
//! ```
//!
//! The numbers of a stage are those of `confscript_stages`.
ghost use Rattle.std.specs.Prelude.{◌≡◌, ◌∷◌, length, IfOk};
ghost use Rattle.conf_driver.specs.declared.action.Action.TheVariants.{Propose};
ghost use Rattle.confscript_c.specs.Actions as spec;
ghost use Rattle.confscript_c.specs.Actions.{action_numbers};

use crate::numbers::Numbers;
use crate::stages::append_stage;
use conf_change::{Config, Step};
use conf_driver::{Action, StuckReason, WaitReason};
use plan_output::Stage;
use quorum_sets::{InlineIds, NoMemory};
use smallvec::SmallVec;
use std::alloc::Global;

/// The array of an action in a configuration, while these ids are down.
pub(crate) fn numbers_of_action(
    alloc: Global,
    down: &InlineIds,
    now: &Config<InlineIds>,
    action: &Action,
) -> Result<Numbers, NoMemory>
    ensures { IfOk result (λ numbers. numbers.items ≡ action_numbers down.now now.now action.now) }
{
    match action {
        Action::Start(ids) => numbers_listing(alloc, 0, 0, ids.as_slice()),
        Action::Stop(ids) => numbers_listing(alloc, 1, 0, ids.as_slice()),
        Action::Transfer(id) => numbers_listing(alloc, 2, 0, &[*id]),
        Action::Propose(step) => numbers_of_proposal(alloc, down, now, step),
        Action::Wait(why, ids) => numbers_listing(alloc, 4, wait_number(*why), ids.as_slice()),
        Action::Stuck(why, ids) => numbers_listing(alloc, 5, stuck_number(*why), ids.as_slice()),
        Action::Done => numbers_listing(alloc, 6, 0, &[]),
    }
}

// The array of an action that names these ids.
fn numbers_listing(
    alloc: Global,
    action: u64,
    reason: u64,
    ids: &[u64],
) -> Result<Numbers, NoMemory>
    ensures { IfOk result (λ numbers. numbers.items ≡ action ∷ reason ∷ length ids.now ∷ ids.now) }
{
    let mut numbers = SmallVec::new(alloc);
    numbers.push(action)?;
    numbers.push(reason)?;
    numbers.push(ids.len() as u64)?;
    numbers.extend_from_slice(ids)?;
    Ok(numbers)
}

// The array of a proposal.
fn numbers_of_proposal(
    alloc: Global,
    down: &InlineIds,
    now: &Config<InlineIds>,
    step: &Step,
) -> Result<Numbers, NoMemory>
    ensures { IfOk result (λ numbers. numbers.items
        ≡ action_numbers down.now now.now (Propose step.now)) }
{
    let before = Stage::first(alloc, now)?;
    let after = before.next(alloc, step)?;
    let mut numbers = numbers_listing(alloc, 3, 0, &[])?;
    append_stage(&mut numbers, down, &before, step, &after)?;
    Ok(numbers)
}

// The number of a reason to wait.
fn wait_number(why: WaitReason) -> u64
    ensures { result ≡ spec.wait_number why }
{
    match why {
        WaitReason::NoLeader => 1,
        WaitReason::Pending => 2,
        WaitReason::Heard => 3,
        WaitReason::Unheard => 4,
        WaitReason::Behind => 5,
        WaitReason::Leaving => 6,
    }
}

// The number of a reason why the target is not reached.
fn stuck_number(why: StuckReason) -> u64
    ensures { result ≡ spec.stuck_number why }
{
    match why {
        StuckReason::QuorumLost => 7,
        StuckReason::Stalls => 8,
        StuckReason::Reused => 9,
    }
}
