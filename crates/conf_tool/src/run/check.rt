//! The mode `check`: a script is run, and each directive whose actual output differs from the expected one is reported.
//! The counts come at the end:
//!
//! ```text
//! 1: simple
//! - voters=(1)
//! - 1: StateProbe match=0 next=5
//! + voters=(1)
//! + 1: StateProbe match=0 next=1
//! 2 directives, 1 mismatches
//! ```
//!
//! A script with an error is reported up to the error, without the counts. The report is own.
ghost use Rattle.std.specs.Prelude.{◌≡◌, ◌<◌, ◌+◌, ◌^◌, ◌++◌, OnOk, if◌then◌else◌};
ghost use Rattle.dd_file.specs.Rewritten.{entry, is_directive};
ghost use Rattle.conf_tool.specs.Reports.{actual_for, session_after, differs, report};

use super::handler::{Handler, Outcome};
use crate::options::Options;
use crate::report::{Counts, append_difference};
use crate::tool_fault::ToolFault;
use conf_session::Session;
use dd_file::fault::FileFault;
use dd_file::item::Item;
use quorum_sets::NoMemory;
use std::alloc::Global;

/// The state of the mode: the session that runs the directives, and the counts so far.
#[derive(Drop)]
pub(super) struct Checking {
    session: Session,
    counts: Counts,
}

impl Checking {
    /// Runs and counts an item if it is a directive, and appends the report on it: nothing if its output does not
    /// differ.
    fn check_item(&mut self, item: &Item, text: &mut Vec<u8>) -> Result<(), NoMemory>
        requires { self.old.counts.directives < 2 ^ 30 }
        ensures session { OnOk result (self.new.session ≡ session_after self.old.session item.now) }
        ensures directives { OnOk result (self.new.counts.directives
            ≡ self.old.counts.directives + (if is_directive item.now then 1 else 0)) }
        ensures mismatches { OnOk result (self.new.counts.mismatches
            ≡ self.old.counts.mismatches
            + (if differs (entry item.now (actual_for self.old.session item.now)) then 1
            else 0)) }
        ensures text { OnOk result (text.new.items
            ≡ text.old.items ++ report (entry item.now (actual_for self.old.session item.now))) }
    {
        let Some(directive) = item.as_directive() else {
            return Ok(());
        };
        let actual = self.session.step(directive)?;
        let differs = actual.as_slice() != directive.expected();
        if differs {
            append_difference(text, directive, actual.as_slice())?;
        }
        self.session.reuse(actual);
        self.counts.add(differs);
        Ok(())
    }
}

impl Handler<Item> for Checking {
    ghost use Rattle.std.specs.Prelude.{◌≤◌};
    ghost use Rattle.conf_tool.specs.Answered.{check_left};
    ghost use Rattle.conf_tool.specs.Outputs.{checked_script};
    ghost use Rattle.conf_tool.specs.declared.mode.Mode.TheVariants.{Check as OfCheck};

    ghost mode = { OfCheck };

    ghost whole = { λ options. checked_script options.history options.floor };

    ghost left = { λ s. check_left s.session s.counts.directives s.counts.mismatches };

    ghost HasAnswered = { λ s count. s.counts.directives ≤ count };

    // The mode begins with a new session.
    fn new(alloc: Global, options: Options) -> Result<Checking, ToolFault> {
        Ok(Checking {
            session: Session::with_floor(alloc, options.history, options.floor)?,
            counts: Counts::new(),
        })
    }

    // Replies with the report on the item, if its output differs.
    #[inline(always)]
    fn answer(&mut self, item: &Item, text: &mut Vec<u8>) -> Result<(), ToolFault> {
        self.check_item(item, text)?;
        Ok(())
    }

    // Replies with the counts, unless the script has an error: then they would not be those of the whole script.
    fn end(&mut self, fault: Option<FileFault>, text: &mut Vec<u8>) -> Result<Outcome, NoMemory> {
        if let Some(fault) = fault {
            return Ok(Err(ToolFault::Script(fault)));
        }
        self.counts.append_to(text)?;
        Ok(Ok(self.counts.status()))
    }
}
