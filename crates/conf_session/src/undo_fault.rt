//! Why the changes of a session cannot be undone. The command `undo` and the mode `undo` report the same texts.
ghost use Rattle.std.specs.Prelude.{◌≡◌, IfOk};
ghost use Rattle.conf_session.specs.Undo as spec;

use ascii_text::append::append_number;
use quorum_sets::NoMemory;
use std::alloc::Global;
use thiserror::Error;

const NO_PLAN: &str = "no plan: ";

const ARE_KEPT: &str = " earlier configurations are kept";

const NO_VOTER: &str = "the earlier configuration has no voter";

const OUT_OF_MEMORY: &str = "out of memory";

/// Why there is no plan that undoes changes.
#[derive(Clone, Copy, Debug, PartialEq, Eq, Error)]
pub enum UndoFault {
    /// The configuration before those changes is not kept; this many are.
    #[error("{prefix}{0}{suffix}", prefix = NO_PLAN, suffix = ARE_KEPT)]
    NotKept(usize),
    /// The earlier configuration is empty, as that of a new session. No change leads back to it, since a change never
    /// removes the last voter.
    #[error("{prefix}{why}", prefix = NO_PLAN, why = NO_VOTER)]
    NoVoterTarget,
    /// Memory ran out.
    #[error("{}", OUT_OF_MEMORY)]
    NoMemory,
}

// Room in bytes for the longest text.
const FAULT_ROOM: usize = 64;

/// The message of an error. It is not written by `Display`, whose text no contract states.
pub fn undo_fault_text(alloc: Global, fault: UndoFault) -> Result<Vec<u8>, NoMemory>
    ensures { IfOk result (λ text. text.items ≡ spec.undo_fault_text fault) }
{
    let mut text = Vec::with_capacity(alloc, FAULT_ROOM)?;
    match fault {
        UndoFault::NotKept(kept) => {
            text.extend_from_slice(NO_PLAN.as_bytes())?;
            append_number(&mut text, kept as u64)?;
            text.extend_from_slice(ARE_KEPT.as_bytes())?;
        }
        UndoFault::NoVoterTarget => {
            text.extend_from_slice(NO_PLAN.as_bytes())?;
            text.extend_from_slice(NO_VOTER.as_bytes())?;
        }
        UndoFault::NoMemory => text.extend_from_slice(OUT_OF_MEMORY.as_bytes())?,
    }
    Ok(text)
}
