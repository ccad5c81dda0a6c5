//! The cells of a table. The cell below the ids marks what each of them is in the configuration:
//!
//! ```text
//! 1 2 3 10 11
//! - V ~  +  .     1 is only an outgoing voter, 2 a voter of both sets, 3 an outgoing voter and a next learner, 10 only
//!                 an incoming voter, and 11 not a member
//! ```
//!
//! `L` marks a learner. All cells are own.
ghost use Rattle.std.specs.Prelude.{◌≡◌, ◌∷◌, ◌++◌, flat_map, IfOk, OnOk};
ghost use Rattle.plan_output.specs.Names.{name_by, named_change, names_text};
ghost use Rattle.plan_output.specs.Table as spec;

use crate::names::Names;
use crate::stage::Stage;
use ascii_text::append::{append, append_gap, append_number, append_times};
use conf_change::{Change, Config, Step};
use conf_plan::{command_text, letter};
use quorum_sets::{InlineIds, MemberSet, NoMemory, quorum};
use std::alloc::Global;

// The name of a step: its number, counted from 1, and its line, as in `1 simple l4 l5` or `1 simple l#4 l#5`.
pub(crate) fn step_name(
    alloc: Global,
    names: &Names,
    number: usize,
    step: &Step,
) -> Result<Vec<u8>, NoMemory>
    ensures { IfOk result (λ name. name.items ≡ spec.step_name (name_by names.now) number
        step.now) }
{
    let mut name = Vec::new(alloc);
    append_number(&mut name, number as u64)?;
    append(&mut name, b" ")?;
    append(&mut name, command_text(step))?;
    append_changes(&mut name, names, step.changes())?;
    Ok(name)
}

// Appends changes, each after a space.
fn append_changes(text: &mut Vec<u8>, names: &Names, changes: &[Change]) -> Result<(), NoMemory>
    ensures { OnOk result (text.new.items
        ≡ text.old.items ++ flat_map (λ change. 32 ∷ named_change (name_by names.now) change)
        changes.now) }
{
    for change in changes {
        append(text, b" ")?;
        text.push(letter(change.kind))?;
        names.append(text, change.id)?;
    }
    Ok(())
}

// The names of ids, ascending, with one space between, as in `4 5` or `#4 #5`.
pub(crate) fn names_text(alloc: Global, names: &Names, ids: &[u64]) -> Result<Vec<u8>, NoMemory>
    ensures { IfOk result (λ text. text.items ≡ names_text (name_by names.now) ids.now) }
{
    let mut text = Vec::new(alloc);
    for (index, id) in ids.iter().enumerate() {
        append_gap(&mut text, index)?;
        names.append(&mut text, *id)?;
    }
    Ok(text)
}

// The marks of these ids, each flush right below the name of its id.
pub(crate) fn marks_text(
    alloc: Global,
    names: &Names,
    ids: &[u64],
    config: &Config<InlineIds>,
) -> Result<Vec<u8>, NoMemory>
    ensures { IfOk result (λ text. text.items ≡ spec.marks_text (name_by names.now) ids.now
        config.now) }
{
    let mut text = Vec::new(alloc);
    for (index, id) in ids.iter().enumerate() {
        append_gap(&mut text, index)?;
        let mark = mark(config, *id);
        append_times(&mut text, b' ', names.len(*id).saturating_sub(mark.len()))?;
        append(&mut text, mark)?;
    }
    Ok(text)
}

// The mark of an id. In a joint configuration `V` is a voter of both sets, `+` one of the incoming set alone, and `-`
// or `~` one of the outgoing set alone, where `~` is a next learner.
fn mark(config: &Config<InlineIds>, id: u64) -> &'static [u8]
    ensures { result.now ≡ spec.mark config.now id }
{
    if config.incoming.contains(id) {
        if config.outgoing.len() > 0 && !config.outgoing.contains(id) {
            b"+"
        } else {
            b"V"
        }
    } else if config.outgoing.contains(id) {
        if config.learners_next.contains(id) {
            b"~"
        } else {
            b"-"
        }
    } else if config.learners.contains(id) {
        b"L"
    } else {
        b"."
    }
}

// The majority and the number of voters: `2 of 3`, or `3 of 5 and 2 of 3` in a joint configuration, incoming first.
pub(crate) fn majority_text(alloc: Global, config: &Config<InlineIds>) -> Result<Vec<u8>, NoMemory>
    ensures { IfOk result (λ text. text.items ≡ spec.majority_text config.now) }
{
    let mut text = Vec::new(alloc);
    append_majority(&mut text, &config.incoming)?;
    if config.outgoing.len() > 0 {
        append(&mut text, b" and ")?;
        append_majority(&mut text, &config.outgoing)?;
    }
    Ok(text)
}

// Appends the majority of one set of voters, as in `2 of 3`.
fn append_majority(text: &mut Vec<u8>, ids: &InlineIds) -> Result<(), NoMemory>
    ensures { OnOk result (text.new.items ≡ text.old.items ++ spec.majority_of ids.now) }
{
    append_number(text, quorum(ids.len()) as u64)?;
    append(text, b" of ")?;
    append_number(text, ids.len() as u64)?;
    Ok(())
}

// How many ids may be down, or `stalls` if the voters that count are not a quorum even with none down.
pub(crate) fn down_text(alloc: Global, most: Option<usize>) -> Result<Vec<u8>, NoMemory>
    ensures { IfOk result (λ text. text.items ≡ spec.down_text most) }
{
    let mut text = Vec::new(alloc);
    match most {
        Some(most) => append_number(&mut text, most as u64)?,
        None => append(&mut text, b"stalls")?,
    }
    Ok(text)
}

// How many ids may be down until the members that have to catch up have done so. The cell is empty if none has to,
// since the number is then that of the column `may be down`.
pub(crate) fn until_text(alloc: Global, stage: &Stage) -> Result<Vec<u8>, NoMemory>
    ensures { IfOk result (λ text. text.items ≡ spec.until_text stage.now) }
{
    if stage.catching_up().len() == 0 {
        return Ok(Vec::new(alloc));
    }
    down_text(alloc, stage.while_catching_up())
}

// The heading of the last column: `besides 4 6`.
pub(crate) fn besides_heading(
    alloc: Global,
    names: &Names,
    down: &InlineIds,
) -> Result<Vec<u8>, NoMemory>
    ensures { IfOk result (λ text. text.items ≡ spec.besides_heading (name_by names.now) down.now) }
{
    let ids = names_text(alloc, names, down.as_slice())?;
    let mut text = Vec::from_slice(alloc, b"besides ")?;
    append(&mut text, ids.as_slice())?;
    Ok(text)
}
