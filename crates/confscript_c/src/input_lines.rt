//! Reads the ConfState line of a call. A caller in C sees no error type, so an error becomes a status with the number of
//! the line.
ghost use Rattle.std.specs.Prelude.{◌≡◌, ◌⊎◌, Ok, Err, IfOk, IfErr};
ghost use Rattle.conf_change.specs.ConfStateLine.{conf_state_in};
ghost use Rattle.confscript_c.specs.Answer.{no_memory};
ghost use Rattle.confscript_c.specs.InputLines.{line_answer, read_as};

use crate::answer::Answer;
use crate::status::Status;
use conf_change::{ConfState, ConfStateFault, read_conf_state};
use std::alloc::Global;

/// The saved configuration of a line. It may be invalid.
pub(crate) fn read_saved(alloc: Global, number: u64, line: &[u8]) -> Result<ConfState, Answer>
    ensures saved { IfOk result (λ saved. read_as number (conf_state_in line.now) ≡ Ok saved) }
    ensures refused { IfErr result (λ why. (why ≡ no_memory)
        ⊎ (read_as number (conf_state_in line.now) ≡ Err why)) }
{
    match read_conf_state(alloc, line) {
        Ok(saved) => Ok(saved),
        Err(fault) => Err(line_answer(number, fault)),
    }
}

// The answer for an error of the line with this number.
fn line_answer(number: u64, fault: ConfStateFault) -> Answer
    ensures { result ≡ line_answer number fault }
{
    match fault {
        ConfStateFault::BadConfState => Answer::new(Status::BadConfState, number),
        ConfStateFault::NoMemory => Answer::no_memory(),
    }
}
