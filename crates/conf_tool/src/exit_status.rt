//! The exit status of the program.
ghost use Rattle.std.specs.Prelude.{◌≡◌};
ghost use Rattle.conf_tool.specs.ExitStatus.{exit_status_of};

use crate::status::Status;
use crate::tool_fault::ToolFault;

/// The exit status of a result of `run`: 0 or 1 without an error, 2 if the input is wrong, 3 if a read, a write or an
/// allocation failed. Own.
pub fn exit_status(outcome: Result<Status, ToolFault>) -> u8
    ensures { result ≡ exit_status_of outcome }
{
    match outcome {
        Ok(Status::Clean) => 0,
        Ok(Status::Different) => 1,
        Err(ToolFault::Script(_) | ToolFault::Configurations(_)) => 2,
        Err(ToolFault::Read | ToolFault::Write | ToolFault::NoMemory) => 3,
    }
}
