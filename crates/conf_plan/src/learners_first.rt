//! The path on which new voters are learners first (Ongaro's dissertation, section 4.2.1). A learner gets the log and
//! does not vote, so the old voters commit without it while it catches up:
//!
//! ```text
//! (1 2 3)                     --simple l4 l5-->
//! (1 2 3) learners=(4 5)      wait until 4 and 5 have caught up
//!                             --enter-joint r1 r2 v4 v5-->
//! (3 4 5)&&(1 2 3)            --leave-joint-->
//! (3 4 5)
//! ```
ghost use Rattle.std.specs.Prelude.{◌≡◌, IfOk, OnOk};
ghost use Rattle.conf_plan.specs.LearnersFirst as first;
ghost use Rattle.conf_plan.specs.LearnersFirst.{learners_first_from_single};
ghost use Rattle.conf_plan.specs.Run.{IsValidWithVoter};
ghost use Rattle.conf_plan.specs.AddedSteps.{IsAdded};

use crate::filtered::filtered;
use crate::not_joint::NotJoint;
use crate::planner::{add_from_single, add_single_steps};
use conf_change::{Config, Step, union};
use quorum_sets::{MemberSet, NoMemory};
use std::alloc::Global;

// Appends the steps from a configuration that is not joint to the target: a step that makes the newcomers learners, if
// there are any, and the plan from there.
pub(crate) fn add_learners_first<S: MemberSet>(
    alloc: Global,
    steps: &mut Vec<Step>,
    start: &NotJoint<S>,
    target: &Config<S>,
) -> Result<(), NoMemory>
    requires start { IsValidWithVoter start.now }
    requires target { IsValidWithVoter target.now }
    ensures { OnOk result (IsAdded steps.old.items
        (learners_first_from_single start.now target.now) steps.new.items) }
{
    let learners = start.learners;
    let newcomers = newcomers(alloc, start, target)?;
    if newcomers.len() == 0 {
        return add_from_single(alloc, steps, start, target);
    }
    let learners = union(learners, &newcomers)?;
    add_single_steps(alloc, steps, start, start.incoming, &learners)?;
    let learning = NotJoint {
        incoming: start.incoming,
        learners: &learners,
    };
    add_from_single(alloc, steps, &learning, target)
}

// The voters of the target, incoming or outgoing, that are not members: 4 and 5 on the way from (1 2 3) to (3 4 5).
fn newcomers<S: MemberSet>(
    alloc: Global,
    start: &NotJoint<S>,
    target: &Config<S>,
) -> Result<S, NoMemory>
    ensures { IfOk result (λ ids. S.ids ids ≡ first.newcomers start.now target.now) }
{
    let voters = union(&target.incoming, &target.outgoing)?;
    filtered(
        alloc,
        &voters,
        |id| !start.incoming.contains(id) && !start.learners.contains(id),
    )
}
