//! Steps as directives, each with its actual output.
ghost use Rattle.std.specs.Prelude.{◌≡◌, ◌++◌, [], ◌∷◌, OnOk};
ghost use Rattle.conf_tool.specs.Reports.{answered_text, session_after_all};
ghost use Rattle.conf_tool.specs.UndoScript as spec;
ghost use Rattle.conf_tool.specs.UndoScript.{step_items};

use super::rewrite::rewrite_item;
use crate::undo_script::{comment, step_directive};
use conf_change::Step;
use conf_session::Session;
use quorum_sets::NoMemory;
use std::alloc::Global;

/// Runs and appends the directives of steps, or appends that there is nothing to do.
pub(super) fn append_steps(
    alloc: Global,
    session: &mut Session,
    steps: &[Step],
    text: &mut Vec<u8>,
) -> Result<(), NoMemory>
    ensures session { OnOk result (session.new
        ≡ session_after_all session.old (step_items steps.now)) }
    ensures text { OnOk result (text.new.items ≡ text.old.items
        ++ answered_text session.old (step_items steps.now)) }
{
    if steps.is_empty() {
        return append_comment(alloc, session, b"nothing to do", text);
    }
    for step in steps {
        let directive = step_directive(alloc, step)?;
        rewrite_item(session, &directive, text)?;
    }
    Ok(())
}

/// Appends a comment with a text.
pub(super) fn append_comment(
    alloc: Global,
    session: &mut Session,
    why: &[u8],
    text: &mut Vec<u8>,
) -> Result<(), NoMemory>
    ensures session { OnOk result (session.new ≡ session.old) }
    ensures text { OnOk result (text.new.items
        ≡ text.old.items ++ answered_text session.old (spec.comment why.now ∷ [])) }
{
    let item = comment(alloc, why)?;
    rewrite_item(session, &item, text)
}
