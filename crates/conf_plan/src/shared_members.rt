//! The members that two configurations share. If a plan has to pass through a third configuration to reach a joint
//! target, they stay members there, as learners, so that they keep their progress:
//!
//! ```text
//! (1 2 3)  --enter-joint r1 r2 l3 v4 v5-->  (4 5)&&(1 2 3) learners_next=(3)
//!          --leave-joint-->                 (4 5) learners=(3)
//!          --enter-joint v3 r4-->           (3 5)&&(4 5)
//! ```
ghost use Rattle.std.specs.Prelude.{◌≡◌, IfOk};
ghost use Rattle.conf_plan.specs.Planned as planned;

use crate::filtered::filtered;
use crate::not_joint::NotJoint;
use conf_change::{Config, union};
use quorum_sets::{MemberSet, NoMemory};
use std::alloc::Global;

// The members of both configurations that are not outgoing voters of the target; those are voters on the way anyway.
pub(crate) fn shared_members<S: MemberSet>(
    alloc: Global,
    start: &NotJoint<S>,
    target: &Config<S>,
) -> Result<S, NoMemory>
    ensures { IfOk result (λ shared. S.ids shared ≡ planned.shared_members start.now target.now) }
{
    let members = union(start.incoming, start.learners)?;
    filtered(alloc, &members, |id| {
        (target.incoming.contains(id) || target.learners.contains(id))
            && !target.outgoing.contains(id)
    })
}
