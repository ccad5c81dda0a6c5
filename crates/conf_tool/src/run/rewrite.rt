//! The mode `rewrite`: a script is run, and printed again with the actual output of each directive, as `go test
//! -rewrite` does with datadriven's files:
//!
//! ```text
//! simple        ->    simple
//! v1                  v1
//! ----                ----
//!                     voters=(1)
//!                     1: StateProbe match=0 next=1
//! ```
//!
//! A script with an error is printed up to the error.
ghost use Rattle.std.specs.Prelude.{◌≡◌, ◌++◌, [], ◌∷◌, OnOk};
ghost use Rattle.conf_tool.specs.Reports.{answered_text, session_after};

use super::clean_unless::clean_unless;
use super::handler::{Handler, Outcome};
use crate::options::Options;
use crate::tool_fault::ToolFault;
use conf_session::Session;
use dd_file::fault::FileFault;
use dd_file::item::Item;
use dd_file::rewriter::{append_entry, count_newlines, hold_newline, last_newline};
use quorum_sets::NoMemory;
use std::alloc::Global;

/// Runs an item if it is a directive, and appends it with its actual output. Other items have none, and change nothing.
pub(super) fn rewrite_item(
    session: &mut Session,
    item: &Item,
    text: &mut Vec<u8>,
) -> Result<(), NoMemory>
    ensures session { OnOk result (session.new ≡ session_after session.old item.now) }
    ensures text { OnOk result (text.new.items ≡ text.old.items
        ++ answered_text session.old (item.now ∷ [])) }
{
    let Some(directive) = item.as_directive() else {
        return append_entry(text, item, b"");
    };
    let actual = session.step(directive)?;
    append_entry(text, item, actual.as_slice())?;
    session.reuse(actual);
    Ok(())
}

/// The state of the mode: the session that runs the directives, and how many newlines the text so far ends in, the last
/// of which is pending.
#[derive(Drop)]
pub(super) struct Rewriting {
    session: Session,
    newlines: u8,
}

impl Handler<Item> for Rewriting {
    ghost use Rattle.std.specs.Prelude.{ℕ, List};
    ghost use Rattle.dd_file.specs.Rewritten.{newlines_at_end};
    ghost use Rattle.conf_tool.specs.Answered.{rewrite_left};
    ghost use Rattle.conf_tool.specs.Outputs.{rewritten_script};
    ghost use Rattle.conf_tool.specs.declared.mode.Mode.TheVariants.{Rewrite as OfRewrite};

    ghost mode = { OfRewrite };

    ghost whole = { λ options. rewritten_script options.history options.floor };

    ghost left = { λ s. rewrite_left s.session s.newlines };

    ghost HasAnswered = { λ s count. (text : List ℕ) × (s.newlines ≡ newlines_at_end text) };

    // The mode begins with a new session.
    fn new(alloc: Global, options: Options) -> Result<Rewriting, ToolFault> {
        Ok(Rewriting {
            session: Session::with_floor(alloc, options.history, options.floor)?,
            newlines: 0,
        })
    }

    // Replies with the item and its actual output. A newline at its end is dropped if the script ends in two newlines
    // there, so it is left to the next reply.
    #[inline(always)]
    fn answer(&mut self, item: &Item, text: &mut Vec<u8>) -> Result<(), ToolFault> {
        if self.newlines > 0 {
            text.extend_from_slice(b"\n")?;
        }
        let start = text.len();
        rewrite_item(&mut self.session, item, text)?;
        self.newlines = count_newlines(self.newlines, &text.as_slice()[start..]);
        hold_newline(text);
        Ok(())
    }

    // Ends the script, also after an error: it is then the script up to the error.
    fn end(&mut self, fault: Option<FileFault>, text: &mut Vec<u8>) -> Result<Outcome, NoMemory> {
        text.extend_from_slice(last_newline(self.newlines))?;
        Ok(clean_unless(fault))
    }
}
