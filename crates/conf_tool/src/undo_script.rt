//! The items for steps in the scripts that `undo` and `plan` print: directives and comments.
ghost use Rattle.std.specs.Prelude.{◌≡◌, IfOk, map};
ghost use Rattle.conf_tool.specs.UndoScript as spec;

use conf_change::{Change, Step};
use conf_plan::{changes_text, command_text};
use dd_file::item::Item;
use quorum_sets::NoMemory;
use std::alloc::Global;

/// The directive of a step, which expects no output yet.
pub(crate) fn step_directive(alloc: Global, step: &Step) -> Result<Item, NoMemory>
    ensures { IfOk result (λ item. item ≡ spec.step_directive step.now) }
{
    let line = Vec::from_slice(alloc, command_text(step))?;
    let input = change_lines(alloc, step.changes())?;
    match Item::directive(alloc, line, input.as_slice())? {
        Some(item) => Ok(item),
        None => unreachable!(),
    }
}

// Changes as a line of input, if there are any.
fn change_lines(alloc: Global, changes: &[Change]) -> Result<Vec<Vec<u8>>, NoMemory>
    ensures { IfOk result (λ lines. map (λ line. line.items) lines.items
        ≡ spec.change_lines changes.now) }
{
    let mut lines = Vec::new(alloc);
    if !changes.is_empty() {
        lines.push(changes_text(alloc, changes)?)?;
    }
    Ok(lines)
}

/// A comment with this text.
pub(crate) fn comment(alloc: Global, text: &[u8]) -> Result<Item, NoMemory>
    ensures { IfOk result (λ item. item ≡ spec.comment text.now) }
{
    let mut line = Vec::from_slice(alloc, b"# ")?;
    line.extend_from_slice(text)?;
    Ok(Item::comment(alloc, line)?)
}
