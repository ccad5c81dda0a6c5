//! The mode `undo`: a script is run, and then a second script is printed, which undoes the last changes of the first.
//!
//! ```text
//! simple         ->    simple
//! v1                   r2
//! ----                 ----
//!                      voters=(1)
//! simple               1: StateProbe match=0 next=1
//! v2
//! ----
//! ```
//!
//! The steps are those of the plan to the configuration from before the last changes. The session runs them after the
//! first script, so their outputs are those of one session that runs both scripts. The mode is own.
//!
//! If there is no step, the second script is a comment: `# nothing to do`, or `# no plan: ` and the reason.
ghost use Rattle.std.specs.Prelude.{◌≡◌, ◌≤◌, ◌++◌, IfOk, OnOk};
ghost use Rattle.conf_session.specs.Undo.{undo_plan_of};
ghost use Rattle.conf_tool.specs.Outputs.{undo_status};
ghost use Rattle.conf_tool.specs.Reports.{answered_text};
ghost use Rattle.conf_tool.specs.UndoScript.{undo_items};

use super::handler::{Handler, Outcome};
use super::step_items::{append_comment, append_steps};
use crate::options::Options;
use crate::status::Status;
use crate::tool_fault::ToolFault;
use conf_session::{Session, UndoFault, undo_fault_text};
use dd_file::fault::FileFault;
use dd_file::item::Item;
use dd_file::rewriter::end_script;
use quorum_sets::NoMemory;
use std::alloc::Global;

/// The state of the mode: the session that runs both scripts.
#[derive(Drop)]
pub(super) struct Undoing {
    alloc: Global,
    session: Session,
    /// How many changes are undone, from 1 to 1000.
    steps: usize,
    ghost some: { 1 ≤ steps },
}

impl Undoing {
    /// Runs and appends the directives that undo the changes, or appends a comment with the reason why there is no plan.
    fn append_undo(&mut self, text: &mut Vec<u8>) -> Result<Status, NoMemory>
        ensures status { IfOk result (λ status. status
            ≡ undo_status (undo_plan_of self.old.session self.old.steps)) }
        ensures text { OnOk result (text.new.items ≡ text.old.items
            ++ answered_text self.old.session
            (undo_items (undo_plan_of self.old.session self.old.steps))) }
    {
        match self.session.undo_plan(self.steps) {
            Ok(plan) => {
                append_steps(self.alloc, &mut self.session, plan.as_slice(), text)?;
                Ok(Status::Clean)
            }
            Err(fault) => match fault {
                UndoFault::NoMemory => Err(NoMemory),
                _ => {
                    let why = undo_fault_text(self.alloc, fault)?;
                    append_comment(self.alloc, &mut self.session, why.as_slice(), text)?;
                    Ok(Status::Different)
                }
            },
        }
    }
}

impl Handler<Item> for Undoing {
    ghost use Rattle.std.specs.Prelude.{⊤};
    ghost use Rattle.conf_tool.specs.Answered.{undo_left};
    ghost use Rattle.conf_tool.specs.Outputs.{undone_script};
    ghost use Rattle.conf_tool.specs.declared.mode.Mode.TheVariants.{Undo as OfUndo};

    ghost mode = { OfUndo };

    ghost whole = { λ options. undone_script options.history options.floor options.steps };

    ghost left = { λ s. undo_left s.session s.steps };

    ghost HasAnswered = { λ s count. ⊤ };

    // The mode begins with a new session.
    fn new(alloc: Global, options: Options) -> Result<Undoing, ToolFault> {
        Ok(Undoing {
            alloc,
            session: Session::with_floor(alloc, options.history, options.floor)?,
            steps: options.steps,
        })
    }

    // Runs the item. Nothing of the first script is printed, and its expected outputs are ignored.
    #[inline(always)]
    fn answer(&mut self, item: &Item, text: &mut Vec<u8>) -> Result<(), ToolFault> {
        let _ = &*text;
        if let Some(directive) = item.as_directive() {
            let actual = self.session.step(directive)?;
            self.session.reuse(actual);
        }
        Ok(())
    }

    // Replies with the second script. If the first one has an error, its last changes are not known, and nothing is
    // printed.
    fn end(&mut self, fault: Option<FileFault>, text: &mut Vec<u8>) -> Result<Outcome, NoMemory> {
        if let Some(fault) = fault {
            return Ok(Err(ToolFault::Script(fault)));
        }
        let status = self.append_undo(text)?;
        end_script(text);
        Ok(Ok(status))
    }
}
