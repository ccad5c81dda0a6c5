//! Reads the two texts of `confscript_plan`, in the forms that the program reads. A caller in C sees no error type, so
//! an error becomes a status with the number of the text, 1 or 2, or with the id of a change that is refused.
ghost use Rattle.std.specs.Prelude.{◌≡◌, ◌⊎◌, true, Ok, Err, IfOk, IfErr};
ghost use Rattle.conf_change.specs.Configuration.{is_valid};
ghost use Rattle.confscript_c.specs.Answer.{no_memory};
ghost use Rattle.confscript_c.specs.PlanTexts as spec;
ghost use Rattle.confscript_c.specs.PlanTexts.{current_or_answer, target_or_answer, text_answer};

use crate::answer::Answer;
use crate::status::Status;
use conf_change::Config;
use plan_input::{TextFault, read_current, read_target};
use quorum_sets::InlineIds;
use std::alloc::Global;

/// The current configuration and the target. Both are valid.
pub(crate) fn pair_in(
    alloc: Global,
    now: &[u8],
    target: &[u8],
) -> Result<(Config<InlineIds>, Config<InlineIds>), Answer>
    ensures pair { IfOk result (λ pair. spec.pair_in now.now target.now ≡ Ok pair) }
    ensures now { IfOk result (λ pair. current_or_answer now.now ≡ Ok pair.0) }
    ensures target { IfOk result (λ pair. target_or_answer pair.0 target.now ≡ Ok pair.1) }
    ensures valid { IfOk result (λ pair. (is_valid pair.0 ≡ true) × (is_valid pair.1 ≡ true)) }
    ensures refused { IfErr result (λ why. (why ≡ no_memory) ⊎ (spec.pair_in now.now target.now
        ≡ Err why)) }
{
    let now = current_of(alloc, now)?;
    let target = target_of(alloc, &now, target)?;
    Ok((now, target))
}

// The current configuration.
fn current_of(alloc: Global, text: &[u8]) -> Result<Config<InlineIds>, Answer>
    ensures configuration { IfOk result (λ c. current_or_answer text.now ≡ Ok c) }
    ensures valid { IfOk result (λ c. is_valid c ≡ true) }
    ensures refused { IfErr result (λ why. (why ≡ no_memory)
        ⊎ (current_or_answer text.now ≡ Err why)) }
{
    match read_current(alloc, text) {
        Ok(current) => Ok(current.config),
        Err(fault) => Err(text_answer(1, fault)),
    }
}

// The target.
fn target_of(
    alloc: Global,
    now: &Config<InlineIds>,
    text: &[u8],
) -> Result<Config<InlineIds>, Answer>
    requires { is_valid now.now ≡ true }
    ensures configuration { IfOk result (λ c. target_or_answer now.now text.now ≡ Ok c) }
    ensures valid { IfOk result (λ c. is_valid c ≡ true) }
    ensures refused { IfErr result (λ why. (why ≡ no_memory) ⊎ (target_or_answer now.now text.now
        ≡ Err why)) }
{
    match read_target(alloc, now, text) {
        Ok(config) => Ok(config),
        Err(fault) => Err(text_answer(2, fault)),
    }
}

// The answer for an error of the text with this number.
fn text_answer(number: u64, fault: TextFault) -> Answer
    ensures { result ≡ text_answer number fault }
{
    match fault {
        TextFault::UnknownForm => Answer::new(Status::UnknownForm, number),
        TextFault::BadConfState(_) => Answer::new(Status::BadConfState, number),
        TextFault::BadPrinted(_) | TextFault::CommasBetween(_) => {
            Answer::new(Status::BadPrinted, number)
        }
        TextFault::BadJson(_) | TextFault::TextIds(_) => Answer::new(Status::BadJson, number),
        TextFault::NotAConfiguration(_) => Answer::new(Status::NotAConfiguration, number),
        TextFault::BadChange(_, _) | TextFault::BareId(_) | TextFault::Empty => {
            Answer::new(Status::BadChangeList, number)
        }
        TextFault::NotAMember(id) => Answer::new(Status::NotAMember, id),
        TextFault::AddedAgain(id) => Answer::new(Status::AddedAgain, id),
        TextFault::NoMemory => Answer::no_memory(),
    }
}
