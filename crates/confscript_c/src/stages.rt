//! A plan in numbers, for a program that keeps its configuration so and proposes each change itself. From `(1 2)` to
//! `(1 2 3)` with learners first there are two stages, here each in two lines:
//!
//! ```text
//! 0, 2                                the plan does not stall, and 2 stages follow
//! 0, 0, 0, 0,  1,  3, 3               propose the learner 3, by auto; 0 may be down
//! 0, 2, 0, 1, 0, 1,  1, 2,  3,  3     (1 2) learners=(3), and 3 is catching up
//! 0, 1, 1, 1,  1,  0, 3               propose the voter 3, by auto; 1 may be down
//! 0, 3, 0, 0, 0, 0,  1, 2, 3          (1 2 3)
//! ```
//!
//! What is proposed for a stage goes into `confscript_step` with the configuration before it, which writes the
//! configuration of the stage.
ghost use Rattle.std.specs.Prelude.{◌≡◌, ◌≢◌, ◌⊎◌, ◌++◌, ℕ, List, Ok, Err, IfOk, IfErr, OnOk};
ghost use Rattle.plan_output.specs.Stages.{first_stage};
ghost use Rattle.raft_json.specs.Proposal.{proposed_changes};
ghost use Rattle.confscript_c.specs.Answer.{no_memory};
ghost use Rattle.confscript_c.specs.Stages as spec;
ghost use Rattle.confscript_c.specs.Stages.{changes_numbers, counted_stages, stage_numbers, stages_array, stages_numbers, stages_result, StagesLead};
ghost use Rattle.confscript_c.specs.Written.{Writes};

use crate::answer::Answer;
use crate::buffer::write_out;
use crate::numbers::{Numbers, append_configuration, flag_number, valid_configuration_of};
use crate::paths::path_between;
use crate::request::{Request, request_in};
use conf_change::{Change, Config, Kind, Step, Transition};
use conf_plan::Path;
use conf_plan::laws::one_change_each_leads;
use plan_output::laws::stages_are_on_the_way;
use plan_output::{Stage, stages, stalls};
use quorum_sets::{InlineIds, MemberSet, NoMemory};
use raft_json::{proposed_update, transition_of};
use smallvec::SmallVec;
use std::alloc::Global;

/// Writes the plan from one configuration to another as numbers, by a strategy as in `confscript_plan`: whether the
/// plan stalls with the ids that are down, how many stages it has, and the stages. The number is how many numbers are
/// written. A stage is the transition to propose (0 auto, 1 implicit, 2 explicit); how many ids may be down after it;
/// how many while members are catching up; how many besides those that are down while they are; how many changes to
/// propose; the kind and the id of each; and the array of the configuration. A count is the greatest `u64` if nothing
/// commits. A simple step of several changes is a stage for each change. The call is refused if the strategy is
/// unknown, if an id that is down is 0, if an array does not have a valid configuration, if an id that is down is a
/// member of neither, if one of them has no incoming voter, or if the strategy has no plan (own; the numbers of
/// transitions and kinds are those of etcd's `raftpb`).
#[unsafe(no_mangle)]
pub extern "C" fn confscript_stages(
    alloc: Global,
    configuration: &[u64],
    target: &[u64],
    strategy: u32,
    down: &[u64],
    out: &mut [u64],
) -> Answer
    ensures writes { Writes (stages_result configuration.now target.now strategy down.now) out.old
        result out.new }

    // The stages are on the way to the target, and the plan keeps what the strategy promises.
    ensures leads { result ≢ no_memory → (array : List ℕ)
        → stages_result configuration.now target.now strategy down.now ≡ Ok array
        → StagesLead configuration.now target.now strategy down.now array }
{
    match stages_of_call(alloc, configuration, target, strategy, down) {
        Ok(numbers) => write_out(numbers.as_slice(), out),
        Err(why) => why,
    }
}

// The array of the plan. The strategy is looked at first, then the ids that are down, the configurations, and whether
// the ids that are down are members.
fn stages_of_call(
    alloc: Global,
    configuration: &[u64],
    target: &[u64],
    strategy: u32,
    down: &[u64],
) -> Result<Numbers, Answer>
    ensures numbers { IfOk result (λ numbers.
        stages_result configuration.now target.now strategy down.now ≡ Ok numbers.items) }
    ensures leads { IfOk result (λ numbers.
        StagesLead configuration.now target.now strategy down.now numbers.items) }
    ensures refused { IfErr result (λ why. (why ≡ no_memory)
        ⊎ (stages_result configuration.now target.now strategy down.now ≡ Err why)) }
{
    let request = request_in(alloc, strategy, down)?;
    let now = valid_configuration_of(alloc, configuration)?;
    let target = valid_configuration_of(alloc, target)?;
    let path = path_between(alloc, &request, &now, &target)?;
    one_change_each_leads();
    stages_are_on_the_way();
    Ok(stages_array(alloc, &request, &now, &path)?)
}

// The array of a path.
fn stages_array(
    alloc: Global,
    request: &Request,
    now: &Config<InlineIds>,
    path: &Path,
) -> Result<Numbers, NoMemory>
    ensures { IfOk result (λ numbers. numbers.items
        ≡ stages_array request.now.down now.now path.now) }
{
    let each = path.one_change_each(alloc)?;
    match &request.down {
        Some(down) => {
            let stalls = stalls(alloc, now, path, down)?;
            counted_stages(alloc, stalls, down, now, &each)
        }
        None => counted_stages(alloc, false, &InlineIds::empty(alloc), now, &each),
    }
}

// The array of a path that stalls or not, with these ids down.
fn counted_stages(
    alloc: Global,
    stalls: bool,
    down: &InlineIds,
    now: &Config<InlineIds>,
    path: &Path,
) -> Result<Numbers, NoMemory>
    ensures { IfOk result (λ numbers. numbers.items ≡ counted_stages stalls down.now now.now
        path.now) }
{
    let mut numbers = SmallVec::new(alloc);
    numbers.push(flag_number(stalls))?;
    numbers.push(path.len() as u64)?;
    append_stages(alloc, &mut numbers, down, now, path)?;
    Ok(numbers)
}

// Appends the stages of a path, one after another.
fn append_stages(
    alloc: Global,
    numbers: &mut Numbers,
    down: &InlineIds,
    now: &Config<InlineIds>,
    path: &Path,
) -> Result<(), NoMemory>
    ensures { OnOk result (numbers.new.items
        ≡ numbers.old.items ++ stages_numbers down.now (first_stage now.now) path.now) }
{
    let all = stages(alloc, now, path)?;
    let stages = all.as_slice();
    let steps = path.as_slice();
    for (index, step) in steps.iter().enumerate() {
        append_stage(numbers, down, &stages[index], step, &stages[index + 1])?;
    }
    Ok(())
}

/// Appends the stage after a step.
pub(crate) fn append_stage(
    numbers: &mut Numbers,
    down: &InlineIds,
    before: &Stage,
    step: &Step,
    after: &Stage,
) -> Result<(), NoMemory>
    ensures { OnOk result (numbers.new.items
        ≡ numbers.old.items ++ stage_numbers down.now before.now step.now after.now) }
{
    numbers.push(transition_number(transition_of(step)))?;
    numbers.push(count_number(after.may_be_down()))?;
    numbers.push(count_number(after.while_catching_up()))?;
    numbers.push(count_number(after.may_be_down_besides(down)?))?;
    append_proposed(numbers, before.config(), step)?;
    append_configuration(numbers, after.config(), after.catching_up())
}

// Appends the changes that are proposed for a step: its own, or the update of the least incoming voter.
fn append_proposed(
    numbers: &mut Numbers,
    before: &Config<InlineIds>,
    step: &Step,
) -> Result<(), NoMemory>
    ensures { OnOk result (numbers.new.items
        ≡ numbers.old.items ++ changes_numbers (proposed_changes before.now step.now)) }
{
    match proposed_update(before, step) {
        Some(update) => append_changes(numbers, &[update]),
        None => append_changes(numbers, step.changes()),
    }
}

// Appends how many changes there are, and each of them.
fn append_changes(numbers: &mut Numbers, changes: &[Change]) -> Result<(), NoMemory>
    ensures { OnOk result (numbers.new.items ≡ numbers.old.items ++ changes_numbers changes.now) }
{
    numbers.push(changes.len() as u64)?;
    for change in changes {
        numbers.push(kind_number(change.kind))?;
        numbers.push(change.id)?;
    }
    Ok(())
}

// The number of a transition in `raftpb.ConfChangeTransition`.
fn transition_number(transition: Transition) -> u64
    ensures { result ≡ spec.transition_number transition }
{
    match transition {
        Transition::Auto => 0,
        Transition::Implicit => 1,
        Transition::Explicit => 2,
    }
}

// The number of a kind of change in `raftpb.ConfChangeType`.
fn kind_number(kind: Kind) -> u64
    ensures { result ≡ spec.kind_number kind }
{
    match kind {
        Kind::Voter => 0,
        Kind::Remove => 1,
        Kind::Update => 2,
        Kind::Learner => 3,
    }
}

// How many ids may be down, or the greatest number if nothing commits.
fn count_number(count: Option<usize>) -> u64
    ensures { result ≡ spec.count_number count }
{
    match count {
        Some(count) => count as u64,
        None => u64::MAX,
    }
}
