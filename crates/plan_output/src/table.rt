//! The table of a path: a line of headings, a row `now`, and a row for each step with the configuration after it.
//!
//! The last column is there only if ids are given that are down, here 2:
//!
//! ```text
//! step         1 2 3 4  majority  may be down  catch up  until then  besides 2
//! now          V V V .  2 of 3    1                                  0
//! 1 simple v4  V V V V  3 of 4    1            4         0           stalls
//! ```
//!
//! If an id has more than six digits, the table calls its ids by numbers ([`Names`]).
ghost use Rattle.std.specs.Prelude.{◌≡◌, ◌++◌, option_copied, IfOk, OnOk, OnErr};
ghost use Rattle.quorum_sets.specs.Ids.{ascending};
ghost use Rattle.plan_output.specs.Names.{name_by};
ghost use Rattle.plan_output.specs.Stages.{stalls_with};
ghost use Rattle.plan_output.specs.Table as spec;
ghost use Rattle.plan_output.specs.Table.{table_text};

use crate::cells::{
    besides_heading, down_text, majority_text, marks_text, names_text, step_name, until_text,
};
use crate::grid::{Row, append_grid};
use crate::names::{Names, append_denoted};
use crate::stage::{Stage, stages, stalls_at};
use ascii_text::append::append;
use conf_change::Config;
use conf_plan::Path;
use quorum_sets::{InlineIds, MemberSet, NoMemory, union};
use std::alloc::Global;

// Appends the table of a path: a row for the configuration with which it begins, and one for each step with the
// configuration after it. A row shows who votes and learns there, the majority, how many may be down, who has to catch
// up, and how many may be down until then. With `down`, the last column shows how many may be down besides these,
// while the members that have to catch up do not count either. Each line ends with a newline. If an id of a column has
// more than six digits, these ids are called `#1`, `#2` and so on; an empty line and a line for each of them follow.
// Returns whether the path stalls with the ids that are down. On `NoMemory` the text is unchanged (own).
pub(crate) fn add_table(
    alloc: Global,
    text: &mut Vec<u8>,
    now: &Config<InlineIds>,
    path: &Path,
    down: Option<&InlineIds>,
) -> Result<bool, NoMemory>
    ensures ok { OnOk result (text.new.items
        ≡ text.old.items ++ table_text now.now path.now (option_copied down.entry)) }
    ensures stalls { IfOk result (λ stalls. stalls
        ≡ stalls_with (option_copied down.entry) now.now path.now) }
    ensures err { OnErr result (text.new.items ≡ text.old.items) }
{
    let stages = stages(alloc, now, path)?;
    let stalls = stalls_at(stages.as_slice(), down)?;
    let table = table_of(alloc, stages.as_slice(), path, down)?;
    append(text, table.as_slice())?;
    Ok(stalls)
}

// The table of these stages. It is made apart from the text, so that all of it is appended or nothing.
fn table_of(
    alloc: Global,
    stages: &[Stage],
    path: &Path,
    down: Option<&InlineIds>,
) -> Result<Vec<u8>, NoMemory>
    ensures { IfOk result (λ table. table.items
        ≡ spec.table_of (ascending (spec.ids_on_the_way stages.now)) stages.now path.now
        (option_copied down.entry)) }
{
    let members = ids_on_the_way(alloc, stages)?;
    let ids = members.as_slice();
    let names = Names::of_columns(alloc, ids)?;
    let rows = rows(alloc, &names, ids, stages, path, down)?;
    let mut table = Vec::new(alloc);
    append_grid(alloc, &mut table, rows.as_slice())?;
    append_denoted(alloc, &mut table, &names)?;
    Ok(table)
}

// The row of headings, and a row for each stage of the path, with columns for these ids.
fn rows(
    alloc: Global,
    names: &Names,
    ids: &[u64],
    stages: &[Stage],
    path: &Path,
    down: Option<&InlineIds>,
) -> Result<Vec<Row>, NoMemory>
    ensures { IfOk result (λ rows. rows.items
        ≡ spec.stage_rows (name_by names.now) ids.now stages.now path.now
        (option_copied down.entry)) }
{
    let mut rows = Vec::new(alloc);
    rows.push(headings(alloc, names, ids, down)?)?;
    for (index, stage) in stages.iter().enumerate() {
        let name = stage_name(alloc, names, path, index)?;
        rows.push(row(alloc, names, ids, down, name, stage)?)?;
    }
    Ok(rows)
}

// The ids that are members at some stage. They are the same in each row, so that a reader can follow one id down its
// column.
fn ids_on_the_way(alloc: Global, stages: &[Stage]) -> Result<InlineIds, NoMemory>
    ensures { IfOk result (λ ids. ids ≡ spec.ids_on_the_way stages.now) }
{
    let mut ids = InlineIds::empty(alloc);
    for stage in stages {
        ids = union(&ids, &stage.config().members()?)?;
    }
    Ok(ids)
}

// The headings of the columns; the second one is the names of the ids.
fn headings(
    alloc: Global,
    names: &Names,
    ids: &[u64],
    down: Option<&InlineIds>,
) -> Result<Row, NoMemory>
    ensures { IfOk result (λ row. row
        ≡ spec.headings (name_by names.now) ids.now (option_copied down.entry)) }
{
    let mut row = Row::new(alloc);
    row.add(Vec::from_slice(alloc, b"step")?)?;
    row.add(names_text(alloc, names, ids)?)?;
    row.add(Vec::from_slice(alloc, b"majority")?)?;
    row.add(Vec::from_slice(alloc, b"may be down")?)?;
    row.add(Vec::from_slice(alloc, b"catch up")?)?;
    row.add(Vec::from_slice(alloc, b"until then")?)?;
    if let Some(down) = down {
        row.add(besides_heading(alloc, names, down)?)?;
    }
    Ok(row)
}

// The name of a stage: `now`, or the step that leads to it. Stage 0 is before the first step.
fn stage_name(alloc: Global, names: &Names, path: &Path, index: usize) -> Result<Vec<u8>, NoMemory>
    ensures { IfOk result (λ name. name.items ≡ spec.stage_name (name_by names.now) path.now
        index) }
{
    if index > 0 {
        if let Some(step) = path.step(index - 1) {
            return step_name(alloc, names, index, step);
        }
    }
    Ok(Vec::from_slice(alloc, b"now")?)
}

// The row of a stage, which begins with its name.
fn row(
    alloc: Global,
    names: &Names,
    ids: &[u64],
    down: Option<&InlineIds>,
    name: Vec<u8>,
    stage: &Stage,
) -> Result<Row, NoMemory>
    ensures { IfOk result (λ row. row
        ≡ spec.row (name_by names.now) ids.now (option_copied down.entry) name.items stage.now) }
{
    let mut row = Row::new(alloc);
    row.add(name)?;
    row.add(marks_text(alloc, names, ids, stage.config())?)?;
    row.add(majority_text(alloc, stage.config())?)?;
    row.add(down_text(alloc, stage.may_be_down())?)?;
    row.add(names_text(alloc, names, stage.catching_up().as_slice())?)?;
    row.add(until_text(alloc, stage)?)?;
    if let Some(down) = down {
        row.add(down_text(alloc, stage.may_be_down_besides(down)?)?)?;
    }
    Ok(row)
}
