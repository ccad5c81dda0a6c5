//! What can stop a run.
ghost use Rattle.std.specs.Prelude.{◌≡◌};
ghost use Rattle.conf_tool.specs.Run.{as_tool_fault};
ghost use Rattle.conf_tool.specs.declared.tool_fault.ToolFault.TheVariants.{Write, NoMemory};

use crate::plan_input_fault::PlanInputFault;
use dd_file::fault::{FileFault, WriteFault};
use quorum_sets::NoMemory;
use std::alloc::AllocError;
use thiserror::Error;

/// Why a run stopped before its end.
#[derive(Clone, Copy, Debug, PartialEq, Eq, Error)]
pub enum ToolFault {
    /// An error in a script, or an input that is too long.
    #[error("{0}")]
    Script(FileFault),
    /// The input of `plan` is not pairs of configurations.
    #[error("{0}")]
    Configurations(PlanInputFault),
    /// A read failed.
    #[error("cannot read")]
    Read,
    /// A write failed.
    #[error("cannot write")]
    Write,
    /// Memory ran out.
    #[error("out of memory")]
    NoMemory,
}

impl From<FileFault> for ToolFault {
    ghost from_gives = { λ fault converted. converted ≡ as_tool_fault fault };

    fn from(fault: FileFault) -> ToolFault {
        match fault {
            FileFault::Read => ToolFault::Read,
            FileFault::NoMemory => ToolFault::NoMemory,
            _ => ToolFault::Script(fault),
        }
    }
}

impl From<WriteFault> for ToolFault {
    ghost from_gives = { λ _ fault. fault ≡ Write };

    fn from(_fault: WriteFault) -> ToolFault {
        ToolFault::Write
    }
}

impl From<AllocError> for ToolFault {
    ghost from_gives = { λ _ fault. fault ≡ NoMemory };

    fn from(_fault: AllocError) -> ToolFault {
        ToolFault::NoMemory
    }
}

impl From<NoMemory> for ToolFault {
    ghost from_gives = { λ _ fault. fault ≡ NoMemory };

    fn from(_fault: NoMemory) -> ToolFault {
        ToolFault::NoMemory
    }
}
