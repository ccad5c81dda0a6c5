//! The lines of a path. If the path stalls with the ids that are down, a note comes first:
//!
//! ```text
//! # stalls with 4 5 down
//! simple r4
//! simple r5
//! ```
//!
//! What names no source here is own.
ghost use Rattle.std.specs.Prelude.{◌≡◌, ◌++◌, Ok, option_copied, option_map, IfOk, OnOk, OnErr};
ghost use Rattle.ascii_text.specs.Append.{Extends};
ghost use Rattle.conf_change.specs.Text.{spaced_numbers};
ghost use Rattle.conf_plan.specs.PlanCode.{path_in};
ghost use Rattle.conf_plan.specs.PlanText.{plan_text};
ghost use Rattle.plan_output.specs.Steps as spec;
ghost use Rattle.plan_output.specs.Stages.{stalls_with};
ghost use Rattle.plan_output.specs.Steps.{note_line, steps_text};

use crate::cells::names_text;
use crate::names::Names;
use crate::stage::stalls;
use ascii_text::append::{append, undo_if_failed};
use conf_change::Config;
use conf_plan::{Path, print_path};
use quorum_sets::{InlineIds, NoMemory, commits_without};
use std::alloc::Global;

/// The note that a path stalls with the ids that are down, such as `stalls with 4 5 down`. It is `no quorum with 4 5 down:
/// no step can be made` if the configuration with which the path begins has no quorum then. `None` if the path does not
/// stall, or if no ids are given.
pub fn stall_note(
    alloc: Global,
    now: &Config<InlineIds>,
    path: &Path,
    down: Option<&InlineIds>,
) -> Result<Option<Vec<u8>>, NoMemory>
    ensures { IfOk result (λ note. option_map (λ note. note.items) note
        ≡ spec.stall_note (option_copied down.entry) now.now path.now) }
{
    match down {
        Some(down) if stalls(alloc, now, path, down)? => Ok(Some(stall_text(alloc, now, down)?)),
        _ => Ok(None),
    }
}

// The text of that note.
fn stall_text(alloc: Global, now: &Config<InlineIds>, down: &InlineIds) -> Result<Vec<u8>, NoMemory>
    ensures { IfOk result (λ text. text.items ≡ spec.stall_text now.now down.now) }
{
    let ids = down.as_slice();
    if commits_without((&now.incoming, &now.outgoing), down) {
        around_ids(alloc, b"stalls with ", ids, b" down")
    } else {
        around_ids(
            alloc,
            b"no quorum with ",
            ids,
            b" down: no step can be made",
        )
    }
}

// Ids between two texts.
fn around_ids(alloc: Global, before: &[u8], ids: &[u64], after: &[u8]) -> Result<Vec<u8>, NoMemory>
    ensures { IfOk result (λ text. text.items ≡ before.now ++ spaced_numbers ids.now ++ after.now) }
{
    let digits = names_text(alloc, &Names::digits(alloc), ids)?;
    let mut text = Vec::from_slice(alloc, before)?;
    text.extend_from_slice(digits.as_slice())?;
    text.extend_from_slice(after)?;
    Ok(text)
}

// Appends the lines of a path, and before them as a comment the note that it stalls, if it does with the ids that are
// down. Returns whether it stalls. On `NoMemory` the text is unchanged.
pub(crate) fn add_steps(
    alloc: Global,
    text: &mut Vec<u8>,
    now: &Config<InlineIds>,
    path: &Path,
    down: Option<&InlineIds>,
) -> Result<bool, NoMemory>
    ensures ok { OnOk result (text.new.items
        ≡ text.old.items ++ steps_text (option_copied down.entry) now.now path.now) }
    ensures reads_back { OnOk result (path_in (plan_text path.now) ≡ Ok path.now) }
    ensures stalls { IfOk result (λ stalls. stalls
        ≡ stalls_with (option_copied down.entry) now.now path.now) }
    ensures err { OnErr result (text.new.items ≡ text.old.items) }
{
    let note = stall_note(alloc, now, path, down)?;
    let len = text.len();
    let appended = append_lines(text, note.as_ref(), path);
    undo_if_failed(text, len, appended)?;
    Ok(note.is_some())
}

// Appends the lines of a path, and before them a note as a comment, if there is one.
fn append_lines(text: &mut Vec<u8>, note: Option<&Vec<u8>>, path: &Path) -> Result<(), NoMemory>
    ensures ok { OnOk result (text.new.items ≡ text.old.items
        ++ note_line (option_map (λ note. note.now.items) note.entry) ++ plan_text path.now) }
    ensures reads_back { OnOk result (path_in (plan_text path.now) ≡ Ok path.now) }
    ensures extends { Extends text.old.items text.new.items }
{
    if let Some(note) = note {
        append(text, b"# ")?;
        append(text, note.as_slice())?;
        append(text, b"\n")?;
    }
    print_path(text, path)
}
