//! What to do next, for a program that keeps its configuration in numbers.
ghost use Rattle.std.specs.Prelude.{◌≡◌, ◌⊎◌, true, Ok, Err, IfOk, IfErr};
ghost use Rattle.conf_change.specs.Configuration.{is_valid};
ghost use Rattle.conf_plan.specs.PathBy.{ids_down};
ghost use Rattle.confscript_c.specs.Answer.{no_memory};
ghost use Rattle.confscript_c.specs.Next as spec;
ghost use Rattle.confscript_c.specs.Next.{action_result, next_result};
ghost use Rattle.confscript_c.specs.Written.{Writes};

use crate::actions::numbers_of_action;
use crate::answer::Answer;
use crate::buffer::write_out;
use crate::numbers::{Numbers, valid_configuration_of};
use crate::request::{Request, request_in};
use crate::status::Status;
use crate::views::view_in;
use conf_change::Config;
use conf_driver::{NextFault, View, next};
use quorum_sets::{InlineIds, MemberSet};
use std::alloc::Global;

/// Writes what to do next on the way to a target, by a strategy as in `confscript_plan` other than the shortest plan:
/// the action (0 start, 1 stop, 2 transfer leadership, 3 propose, 4 wait, 5 stuck, 6 done), the reason (0 for none; to
/// wait: 1 no leader, 2 pending, 3 heard from, 4 not heard from, 5 behind, 6 leaving; stuck: 7 quorum lost, 8 stalls, 9
/// reused), how many ids it names, the ids, and for a proposal its stage as `confscript_stages` writes it. The number
/// is how many numbers are written. The configuration is the one that the leader has applied, and the view has what
/// else is known of the cluster. An id that is down may be a member of neither configuration: it is ignored. The call
/// is refused as `confscript_stages`, if the strategy is the shortest plan, if the array of the view has another form or
/// the id 0, if the target has auto-leave, and if there is a leader and the index of the configuration is 0, or its own
/// progress is missing while it is a member (own).
#[unsafe(no_mangle)]
pub extern "C" fn confscript_next(
    alloc: Global,
    configuration: &[u64],
    target: &[u64],
    strategy: u32,
    down: &[u64],
    view: &[u64],
    out: &mut [u64],
) -> Answer
    ensures { Writes (next_result configuration.now target.now strategy down.now view.now) out.old
        result out.new }
{
    match next_of_call(alloc, configuration, target, strategy, down, view) {
        Ok(numbers) => write_out(numbers.as_slice(), out),
        Err(why) => why,
    }
}

// The array of the action. The strategy is looked at first, then the ids that are down, the configurations, and the
// view.
fn next_of_call(
    alloc: Global,
    configuration: &[u64],
    target: &[u64],
    strategy: u32,
    down: &[u64],
    view: &[u64],
) -> Result<Numbers, Answer>
    ensures numbers { IfOk result (λ numbers.
        next_result configuration.now target.now strategy down.now view.now ≡ Ok numbers.items) }
    ensures refused { IfErr result (λ why. (why ≡ no_memory)
        ⊎ (next_result configuration.now target.now strategy down.now view.now ≡ Err why)) }
{
    let request = request_in(alloc, strategy, down)?;
    let now = valid_configuration_of(alloc, configuration)?;
    let target = valid_configuration_of(alloc, target)?;
    let view = view_in(alloc, now, view)?;
    action_of(alloc, &request, &target, &view)
}

// The array of the action in a view.
fn action_of(
    alloc: Global,
    request: &Request,
    target: &Config<InlineIds>,
    view: &View,
) -> Result<Numbers, Answer>
    requires valid_now { is_valid view.now.conf_state ≡ true }
    requires valid_target { is_valid target.now ≡ true }
    ensures numbers { IfOk result (λ numbers. action_result request.now target.now view.now
        ≡ Ok numbers.items) }
    ensures refused { IfErr result (λ why. (why ≡ no_memory)
        ⊎ (action_result request.now target.now view.now ≡ Err why)) }
{
    match &request.down {
        Some(down) => action_with(alloc, request, target, down, view),
        None => action_with(alloc, request, target, &InlineIds::empty(alloc), view),
    }
}

// The array of the action with these ids down, which are those of the request.
fn action_with(
    alloc: Global,
    request: &Request,
    target: &Config<InlineIds>,
    down: &InlineIds,
    view: &View,
) -> Result<Numbers, Answer>
    requires valid_now { is_valid view.now.conf_state ≡ true }
    requires valid_target { is_valid target.now ≡ true }
    requires down { down.now ≡ ids_down request.now.down }
    ensures numbers { IfOk result (λ numbers. action_result request.now target.now view.now
        ≡ Ok numbers.items) }
    ensures refused { IfErr result (λ why. (why ≡ no_memory)
        ⊎ (action_result request.now target.now view.now ≡ Err why)) }
{
    match next(alloc, request.strategy, target, down, view) {
        Ok(action) => Ok(numbers_of_action(alloc, down, &view.conf_state, &action)?),
        Err(why) => Err(no_action_answer(why)),
    }
}

// The answer where there is no action.
fn no_action_answer(why: NextFault) -> Answer
    ensures { result ≡ spec.no_action_answer why }
{
    match why {
        NextFault::Shortest => Answer::new(Status::StrategyMayStall, 0),
        NextFault::AutoLeaveTarget => Answer::new(Status::AutoLeaveTarget, 0),
        NextFault::NoConfIndex => Answer::new(Status::NoConfIndex, 0),
        NextFault::NoLeaderProgress => Answer::new(Status::NoLeaderProgress, 0),
        NextFault::NoVoterNow => Answer::new(Status::NoVoter, 1),
        NextFault::NoVoterTarget => Answer::new(Status::NoVoter, 2),
        NextFault::JointTarget => Answer::new(Status::JointTarget, 0),
        NextFault::NoMemory => Answer::no_memory(),
    }
}
