//! The result of `lines` and `rewrite`, which have nothing to compare: a run ends clean unless its input has an error.
ghost use Rattle.std.specs.Prelude.{◌≡◌};
ghost use Rattle.conf_tool.specs.Outputs.{clean_unless};

use crate::status::Status;
use crate::tool_fault::ToolFault;
use dd_file::fault::FileFault;

/// `Clean`, unless the input has this error.
pub(super) fn clean_unless(fault: Option<FileFault>) -> Result<Status, ToolFault>
    ensures { result ≡ clean_unless fault }
{
    match fault {
        None => Ok(Status::Clean),
        Some(fault) => Err(ToolFault::Script(fault)),
    }
}
