//! The mode `next`: each line of the input is a view of a cluster in JSON, with a target, and the reply is what to do next.
//! The lines are answered one by one; nothing is kept between them:
//!
//! ```text
//! {"conf_state":{"voters":[1]},"conf_index":5,"lead":1,"progress":[{"id":1,"match":5}],"running":[1],"target":{"voters":[1,2]},"strategy":"learners-first"}
//! {"action":"start","ids":[2]}
//! {"lead":true}
//! {"error":"conf_state: expected a ConfState, as {\"voters\":[1,2,3],\"learners\":[4]}, or etcdctl member list -w json"}
//! ```
//!
//! Blank lines and comments are skipped. What is asked and answered is in the crate `driver_json`; the mode is own.
ghost use Rattle.std.specs.Prelude.{◌≡◌};
ghost use Rattle.conf_tool.specs.Outputs.{next_outcome};

use super::handler::{Handler, Outcome};
use crate::next_reply::answer_view;
use crate::options::Options;
use crate::status::Status;
use crate::tool_fault::ToolFault;
use dd_file::fault::FileFault;
use dd_file::line::Line;
use quorum_sets::NoMemory;
use std::alloc::Global;

/// The state of the mode: whether a line was refused.
#[derive(Drop)]
pub(super) struct Deciding {
    alloc: Global,
    refused: bool,
}

// How a run ends, by whether a line was refused, and by the error in the input.
fn outcome(refused: bool, fault: Option<FileFault>) -> Outcome
    ensures { result ≡ next_outcome refused fault }
{
    match fault {
        Some(fault) => Err(ToolFault::Script(fault)),
        None if refused => Ok(Status::Different),
        None => Ok(Status::Clean),
    }
}

impl Handler<Line> for Deciding {
    ghost use Rattle.std.specs.Prelude.{⊤, false};
    ghost use Rattle.conf_tool.specs.Outputs.{next_output_from};
    ghost use Rattle.conf_tool.specs.declared.mode.Mode.TheVariants.{Next as OfNext};

    ghost mode = { OfNext };

    ghost whole = { λ _. next_output_from false };

    ghost left = { λ s. next_output_from s.refused };

    ghost HasAnswered = { λ s count. ⊤ };

    fn new(alloc: Global, _options: Options) -> Result<Deciding, ToolFault> {
        Ok(Deciding {
            alloc,
            refused: false,
        })
    }

    // Replies to a line with what to do next, or with what is wrong with it.
    fn answer(&mut self, line: &Line, text: &mut Vec<u8>) -> Result<(), ToolFault> {
        let refused = answer_view(self.alloc, line.as_slice(), text)?;
        self.refused |= refused;
        Ok(())
    }

    // Nothing is printed at the end.
    fn end(&mut self, fault: Option<FileFault>, text: &mut Vec<u8>) -> Result<Outcome, NoMemory> {
        let _ = &*text;
        Ok(outcome(self.refused, fault))
    }
}
