//! The script that takes the steps of a path.
ghost use Rattle.std.specs.Prelude.{◌≡◌, ◌++◌, option_map, IfOk, OnOk};
ghost use Rattle.conf_tool.specs.Reports.{answered_text, session_after_all};
ghost use Rattle.conf_tool.specs.PlanScript as spec;

use super::rewrite::rewrite_item;
use super::step_items::{append_comment, append_steps};
use conf_change::{Config, Floor, conf_state, write_conf_state};
use conf_plan::Path;
use conf_session::{Session, SessionIds};
use dd_file::item::Item;
use dd_file::rewriter::end_script;
use quorum_sets::NoMemory;
use std::alloc::Global;

/// The session in which `plan` answers: it has the options that `check` has by default.
pub(super) fn default_session(alloc: Global) -> Result<Session, NoMemory>
    ensures { IfOk result (λ session. session ≡ spec.default_session) }
{
    Session::with_floor(alloc, 100, Floor::One)
}

/// The script that restores a configuration and takes the steps of a path from there, with its actual output in a
/// session. A note comes before it as a comment.
pub(crate) fn script_text(
    alloc: Global,
    session: &mut Session,
    note: Option<&Vec<u8>>,
    now: &Config<SessionIds>,
    path: &Path,
) -> Result<Vec<u8>, NoMemory>
    ensures text { IfOk result (λ text. text.items
        ≡ spec.script_text session.old (option_map (λ note. note.now.items) note.entry) now.now
        path.now) }
    ensures session { OnOk result (session.new
        ≡ session_after_all session.old
        (spec.script_items (option_map (λ note. note.now.items) note.entry) now.now path.now)) }
{
    let mut text = Vec::new(alloc);
    let restore = restore_directive(alloc, now)?;
    append_note(alloc, session, note, &mut text)?;
    rewrite_item(session, &restore, &mut text)?;
    append_steps(alloc, session, path.as_slice(), &mut text)?;
    end_script(&mut text);
    Ok(text)
}

// Appends a note as a comment, if there is one.
fn append_note(
    alloc: Global,
    session: &mut Session,
    note: Option<&Vec<u8>>,
    text: &mut Vec<u8>,
) -> Result<(), NoMemory>
    ensures session { OnOk result (session.new ≡ session.old) }
    ensures text { OnOk result (text.new.items ≡ text.old.items
        ++ answered_text session.old
        (spec.note_items (option_map (λ note. note.now.items) note.entry))) }
{
    match note {
        Some(note) => append_comment(alloc, session, note.as_slice(), text),
        None => Ok(()),
    }
}

// The directive that restores a configuration, with no expected output.
fn restore_directive(alloc: Global, config: &Config<SessionIds>) -> Result<Item, NoMemory>
    ensures { IfOk result (λ item. item ≡ spec.restore_directive config.now) }
{
    let mut line = Vec::new(alloc);
    write_conf_state(&mut line, &conf_state(alloc, config)?)?;
    let mut input = Vec::new(alloc);
    input.push(line)?;
    let command = Vec::from_slice(alloc, b"restore")?;
    match Item::directive(alloc, command, input.as_slice())? {
        Some(item) => Ok(item),
        None => unreachable!(),
    }
}
