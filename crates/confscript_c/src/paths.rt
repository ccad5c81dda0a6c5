//! The path between two configurations by a request, of which `confscript_plan` writes a text and `confscript_stages`
//! numbers:
//!
//! ```text
//! shortest, 3 down, from (1 2 3) to (1 2)   ->   simple r3
//! shortest, 4 down, from (1 2 3) to (1 2)   ->   4 is down and not a member
//! ```
ghost use Rattle.std.specs.Prelude.{◌≡◌, ◌⊎◌, ℕ, List, true, Ok, Err, IfOk, IfErr};
ghost use Rattle.conf_change.specs.Configuration.{is_valid};
ghost use Rattle.conf_change.specs.declared.step.Step.{Step as StepValue};
ghost use Rattle.conf_plan.specs.PathBy.{ids_down, KeepsPromises};
ghost use Rattle.confscript_c.specs.Answer.{no_memory};
ghost use Rattle.confscript_c.specs.Paths.{members_path_result, no_path_answer, IsMade};

use crate::answer::Answer;
use crate::request::Request;
use crate::status::Status;
use conf_change::Config;
use conf_plan::{NoPath, Path, plan_by};
use plan_input::first_nonmember;
use quorum_sets::InlineIds;
use std::alloc::Global;

// The answer where there is no path.
fn no_path_answer(why: NoPath) -> Answer
    ensures { result ≡ no_path_answer why }
{
    match why {
        NoPath::NoVoterNow => Answer::new(Status::NoVoter, 1),
        NoPath::NoVoterTarget => Answer::new(Status::NoVoter, 2),
        NoPath::JointTarget => Answer::new(Status::JointTarget, 0),
        NoPath::NoMemory => Answer::no_memory(),
    }
}

/// The path between two configurations by the strategy, made while the ids of the request are down, which are members of
/// one of the two.
pub(crate) fn path_between(
    alloc: Global,
    request: &Request,
    now: &Config<InlineIds>,
    target: &Config<InlineIds>,
) -> Result<Path, Answer>
    requires valid_now { is_valid now.now ≡ true }
    requires valid_target { is_valid target.now ≡ true }
    ensures path { IfOk result (λ path. (written : List StepValue → List ℕ)
        → members_path_result request.now now.now target.now written ≡ Ok (written path)) }
    ensures promises { IfOk result (λ path. KeepsPromises request.now.strategy
        (ids_down request.now.down)
        now.now path target.now) }
    ensures made { IfOk result (λ path. IsMade request.now now.now target.now path) }
    ensures refused { IfErr result (λ why. (why ≡ no_memory) ⊎ ((written : List StepValue → List ℕ)
        → members_path_result request.now now.now target.now written ≡ Err why)) }

    // It is found that there is no path before any memory is taken.
    ensures no_path { (written : List StepValue → List ℕ) (why : Answer)
        → members_path_result request.now now.now target.now written ≡ Err why → result ≡ Err why }
{
    let down = request.down.as_ref();
    if let Some(id) = first_nonmember(down, now, target) {
        return Err(Answer::new(Status::DownNotAMember, id));
    }
    match plan_by(alloc, request.strategy, now, target, down) {
        Ok(path) => Ok(path),
        Err(why) => Err(no_path_answer(why)),
    }
}
