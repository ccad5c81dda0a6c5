//! The mode `lines`: each line of the input is one change, and the reply is the configuration after it, or why the
//! change is refused. It begins with the empty configuration:
//!
//! ```text
//! v1         voters=(1)
//! l2         voters=(1) learners=(2)
//! r1         removed all voters
//! v3 v4      one change expected
//! x5         unknown input: x5
//! ```
//!
//! A refused line changes nothing. The changes and the refusals are those of etcd; the mode is own.
use super::clean_unless::clean_unless;
use super::handler::{Handler, Outcome};
use crate::line_reply::answer_line;
use crate::options::Options;
use crate::tool_fault::ToolFault;
use ascii_text::append::append;
use conf_change::Config;
use conf_session::SessionIds;
use dd_file::fault::FileFault;
use dd_file::line::Line;
use quorum_sets::NoMemory;
use std::alloc::Global;

/// The state of the mode: the configuration after the lines so far. No reply shows the progress of the members.
#[derive(Drop)]
pub(super) struct LineByLine {
    config: Config<SessionIds>,
    // The configuration before the last change, whose memory the next one uses.
    spare: Config<SessionIds>,
}

impl Handler<Line> for LineByLine {
    ghost use Rattle.std.specs.Prelude.{⊤};
    ghost use Rattle.conf_change.specs.Configuration.{empty_configuration};
    ghost use Rattle.conf_tool.specs.Outputs.{lines_output_from};
    ghost use Rattle.conf_tool.specs.declared.mode.Mode.TheVariants.{Lines as OfLines};

    ghost mode = { OfLines };

    ghost whole = { λ _. lines_output_from empty_configuration };

    ghost left = { λ s. lines_output_from s.config };

    ghost HasAnswered = { λ s count. ⊤ };

    // The mode begins with an empty configuration.
    fn new(alloc: Global, _options: Options) -> Result<LineByLine, ToolFault> {
        Ok(LineByLine {
            config: Config::empty(alloc),
            spare: Config::empty(alloc),
        })
    }

    // Replies to a line with the configuration after its change, or with the reason why the change is refused.
    #[inline(always)]
    fn answer(&mut self, line: &Line, text: &mut Vec<u8>) -> Result<(), ToolFault> {
        answer_line(&mut self.config, &mut self.spare, line.as_slice(), text)?;
        append(text, b"\n")?;
        Ok(())
    }

    // Nothing is printed at the end.
    fn end(&mut self, fault: Option<FileFault>, text: &mut Vec<u8>) -> Result<Outcome, NoMemory> {
        let _ = &*self;
        let _ = &*text;
        Ok(clean_unless(fault))
    }
}
