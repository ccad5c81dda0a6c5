//! The target of a list of changes.
//!
//! ```text
//! (2 3 4)&&(1 2 3)  --leave-joint-->  (2 3 4)  --enter-joint r2-->  (3 4)&&(2 3 4)  --leave-joint-->  (3 4)
//! ```
ghost use Rattle.std.specs.Prelude.{◌≡◌, IfOk};
ghost use Rattle.plan_input.specs.Changed as spec;
ghost use Rattle.plan_input.specs.Changed.{when_left};

use conf_change::{Change, Config, Refused, StepKind, next_config};
use quorum_sets::{InlineIds, MemberSet, NoMemory};
use std::alloc::Global;

/// What a configuration becomes if it is left first where it is joint, and the changes are then made all at once. It is
/// empty if no voter is left. Only the last change of an id that is not an update counts, and changes of the id 0 have
/// no effect, as in etcd.
pub(crate) fn after_changes(
    alloc: Global,
    now: &Config<InlineIds>,
    changes: &[Change],
) -> Result<Config<InlineIds>, NoMemory>
    ensures { IfOk result (λ target. target ≡ spec.after_changes now.now changes.now) }
{
    let before = when_left(now)?;
    match next_config(&before, StepKind::Enter(false), changes) {
        Ok(joint) => when_left(&joint),
        Err(Refused::NoMemory) => Err(NoMemory),
        // No voter is left.
        Err(_) => Ok(Config::empty(alloc)),
    }
}

// The configuration after it is left, if it is joint.
fn when_left(config: &Config<InlineIds>) -> Result<Config<InlineIds>, NoMemory>
    ensures { IfOk result (λ left. left ≡ when_left config.now) }
{
    if config.outgoing.len() == 0 {
        return config.try_clone();
    }
    match next_config(config, StepKind::Leave, &[]) {
        Ok(left) => Ok(left),
        // A joint configuration can be left, so only memory can run out.
        Err(_) => Err(NoMemory),
    }
}
