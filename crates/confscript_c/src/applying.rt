//! Applying the steps of a path to the configuration of a line:
//!
//! ```text
//! Voters:[1 2 3] ..  and  enter-joint autoleave=false r1 v5  ->  Voters:[2 3 5] VotersOutgoing:[1 2 3] ..
//! ```
//!
//! A program keeps its configuration as a line. Once its cluster has committed a step, the program applies the step
//! here and keeps the new line. Progress does not affect the configuration, so the line is all that it has to keep.
ghost use Rattle.std.specs.Prelude.{◌≡◌, ◌⊎◌, Ok, IfOk, IfErr, OnOk, MatchResult};
ghost use Rattle.conf_change.specs.ConfState.{lists_of};
ghost use Rattle.conf_change.specs.ConfStateLine.{conf_state_in, conf_state_text};
ghost use Rattle.conf_plan.specs.PlanCode.{path_in};
ghost use Rattle.confscript_c.specs.Answer.{Refuses, no_memory};
ghost use Rattle.confscript_c.specs.Applied.{apply_result, restore_answer, restored_of, steps_result, text_fault_answer, refusal_answer};
ghost use Rattle.confscript_c.specs.InputLines.{read_as};
ghost use Rattle.confscript_c.specs.Written.{Writes};

use crate::answer::Answer;
use crate::buffer::write_out;
use crate::input_lines::read_saved;
use crate::status::Status;
use conf_change::{Changer, Config, Refused, RestoreFault, conf_state, write_conf_state};
use conf_plan::{Path, PlanTextFault, StepRefused, apply_path, read_path};
use quorum_sets::{InlineIds, NoMemory};
use std::alloc::Global;

/// Applies the steps of a path, of any number, to the configuration of a ConfState line, and writes the line of the
/// result. The number is its length in bytes. The call is refused if the line names no valid configuration, or one with
/// members but no incoming voter, if the path has a bad line, or if a step is refused. The number is then that of the
/// line or the step (etcd's `confchange`).
#[unsafe(no_mangle)]
pub extern "C" fn confscript_apply(
    alloc: Global,
    state: &[u8],
    path: &[u8],
    out: &mut [u8],
) -> Answer
    ensures { Writes (apply_result state.now path.now) out.old result out.new }
{
    match line_after(alloc, state, path) {
        Ok(line) => write_out(line.as_slice(), out),
        Err(why) => why,
    }
}

// The line of the configuration after all steps, or the answer with the reason why there is none.
fn line_after(alloc: Global, state: &[u8], path: &[u8]) -> Result<Vec<u8>, Answer>
    ensures line { IfOk result (λ line. apply_result state.now path.now ≡ Ok line.items) }
    ensures refused { IfErr result (Refuses (apply_result state.now path.now)) }
{
    let mut changer = read_changer(alloc, state)?;
    let path = read_steps(alloc, path)?;
    take(&mut changer, &path)?;
    Ok(line_of(alloc, changer.tracker().config())?)
}

// A changer with the configuration of a line. Its progress is fresh, and is not used.
fn read_changer(alloc: Global, state: &[u8]) -> Result<Changer<InlineIds>, Answer>
    ensures restored { IfOk result (λ changer. restored_of (read_as 1 (conf_state_in state.now))
        ≡ Ok changer.tracker.config) }
    ensures refused { IfErr result (Refuses (restored_of (read_as 1 (conf_state_in state.now)))) }
{
    let saved = read_saved(alloc, 1, state)?;
    Changer::restore(alloc, &saved, 0).map_err(restore_answer)
}

// The answer for a configuration that is not restored.
fn restore_answer(fault: RestoreFault) -> Answer
    ensures { result ≡ restore_answer fault }
{
    match fault {
        RestoreFault::NotAConfiguration => Answer::new(Status::NotAConfiguration, 1),
        RestoreFault::NoMemory => Answer::no_memory(),
    }
}

// The path that a text denotes.
fn read_steps(alloc: Global, text: &[u8]) -> Result<Path, Answer>
    ensures path { IfOk result (λ path. path_in text.now ≡ Ok path) }
    ensures refused { IfErr result (λ why. (why ≡ no_memory)
        ⊎ MatchResult (path_in text.now) (λ _. ⊥) (λ fault. why ≡ text_fault_answer fault)) }
{
    read_path(alloc, text).map_err(text_fault_answer)
}

// The answer for a text that is not a path. A path may have any number of steps, so none is refused for its fifth line.
fn text_fault_answer(fault: PlanTextFault) -> Answer
    ensures { result ≡ text_fault_answer fault }
{
    match fault {
        PlanTextFault::BadLine(number) => Answer::new(Status::BadLine, number as u64),
        PlanTextFault::TooManySteps => Answer::new(Status::BadLine, 5),
        PlanTextFault::NoMemory => Answer::no_memory(),
    }
}

// Applies the steps of a path, up to the first that is refused.
fn take(changer: &mut Changer<InlineIds>, path: &Path) -> Result<(), Answer>
    ensures taken { OnOk result (steps_result 1 changer.old.tracker.config path.now
        ≡ Ok (conf_state_text (lists_of changer.new.tracker.config))) }
    ensures refused { IfErr result (Refuses (steps_result 1 changer.old.tracker.config path.now)) }
{
    match apply_path(changer, path) {
        Ok(()) => Ok(()),
        Err(stop) => Err(refusal(stop.refused, stop.step as u64)),
    }
}

/// The answer for a refused step with this number.
pub(crate) fn refusal(refused: Refused, number: u64) -> Answer
    ensures { result ≡ refusal_answer refused number }
{
    match refused {
        Refused::AlreadyJoint => Answer::new(Status::AlreadyJoint, number),
        Refused::ZeroVoterJoint => Answer::new(Status::ZeroVoterJoint, number),
        Refused::NotJoint => Answer::new(Status::NotJoint, number),
        Refused::SimpleInJoint => Answer::new(Status::SimpleInJoint, number),
        Refused::RemovedAllVoters => Answer::new(Status::RemovedAllVoters, number),
        Refused::MoreThanOneVoter => Answer::new(Status::MoreThanOneVoter, number),
        Refused::NoMemory => Answer::no_memory(),
    }
}

// The ConfState line of a configuration, its lists in ascending order.
fn line_of(alloc: Global, config: &Config<InlineIds>) -> Result<Vec<u8>, NoMemory>
    ensures { IfOk result (λ line. line.items ≡ conf_state_text (lists_of config.now)) }
{
    let mut line = Vec::new(alloc);
    write_conf_state(&mut line, &conf_state(alloc, config)?)?;
    Ok(line)
}
