//! The names of the ids of a table. An id of etcd has 19 or 20 digits, and a table with columns so wide cannot be read.
//! If an id has more than six digits, the table calls its ids by numbers, and lists after its rows which id each number
//! denotes:
//!
//! ```text
//! #1  4                     4
//! #2  10276657743932975437  8e9e05c52164694d
//! ```
ghost use Rattle.std.specs.Prelude.{◌≡◌, ◌<◌, ◌≤◌, ◌^◌, ◌++◌, [], decimal, length, IfOk, OnOk};
ghost use Rattle.std.specs.List.{list_any};
ghost use Rattle.quorum_sets.specs.AscendingLists.{IsAscending};
ghost use Rattle.plan_output.specs.Names as spec;
ghost use Rattle.plan_output.specs.Names.{denoted_row, denoted_text, is_long, name_by, numbered_of};

use crate::grid::{Row, append_grid};
use ascii_text::append::{append, append_number};
use itoa::Buffer;
use quorum_sets::NoMemory;
use std::alloc::Global;
use std::marker::Model;

/// The names of the ids of a table, by the ids that are called by numbers: all of them, or none.
#[derive(Drop)]
pub(crate) struct Names {
    // In ascending order.
    numbered: Vec<u64>,
}

impl Model for Names {
    ghost use Rattle.std.specs.Prelude.{ℕ, List};
    ghost use Rattle.quorum_sets.specs.AscendingLists.{IsAscending};

    ghost Value = { List ℕ };

    ghost view = { λ names. names.numbered.items };

    ghost invariant = { λ names. IsAscending names.numbered.items };
}

impl Names {
    /// The names that are the digits of an id.
    pub(crate) fn digits(alloc: Global) -> Names
        ensures { result ≡ [] }
    {
        Names {
            numbered: Vec::new(alloc),
        }
    }

    /// The names in a table with columns for these ids: numbers if one of them has more than six digits.
    pub(crate) fn of_columns(alloc: Global, ids: &[u64]) -> Result<Names, NoMemory>
        requires { IsAscending ids.now }
        ensures { IfOk result (λ names. names ≡ numbered_of ids.now) }
    {
        if some_is_long(ids) {
            Ok(Names {
                numbered: Vec::from_slice(alloc, ids)?,
            })
        } else {
            Ok(Names::digits(alloc))
        }
    }

    /// The ids that are called by numbers, in ascending order.
    pub(crate) fn numbered(&self) -> &[u64]
        ensures { result.now ≡ self.now }
    {
        self.numbered.as_slice()
    }

    /// The number of an id, or `None` if it is called by its digits.
    fn number(&self, id: u64) -> Option<u64>
        ensures { result ≡ spec.number_in self.now id }
    {
        match self.numbered.as_slice().binary_search(&id) {
            Ok(index) => Some(index as u64 + 1),
            Err(_) => None,
        }
    }

    /// Appends the name of an id.
    #[tactic(auto, unfolding(crate::specs::Names::name_by))]
    pub(crate) fn append(&self, text: &mut Vec<u8>, id: u64) -> Result<(), NoMemory>
        ensures { OnOk result (text.new.items ≡ text.old.items ++ name_by self.now id) }
    {
        match self.number(id) {
            Some(number) => {
                append(text, b"#")?;
                append_number(text, number)?;
            }
            None => append_number(text, id)?,
        }
        Ok(())
    }

    /// The length of the name of an id.
    #[tactic(auto, unfolding(crate::specs::Names::name_by))]
    pub(crate) fn len(&self, id: u64) -> usize
        ensures len { result ≡ length (name_by self.now id) }
        ensures small { result < 2 ^ 63 }
    {
        match self.number(id) {
            Some(number) => 1 + digit_count(number),
            None => digit_count(id),
        }
    }
}

// How many digits a number has.
fn digit_count(number: u64) -> usize
    ensures digits { result ≡ length (decimal number) }
    ensures short { result ≤ 40 }
{
    let mut buffer = Buffer::new();
    buffer.format(number).len()
}

// Whether one of these ids has more than six digits.
fn some_is_long(ids: &[u64]) -> bool
    ensures { result ≡ list_any is_long ids.now }
{
    for id in ids {
        if digit_count(*id) > 6 {
            return true;
        }
    }
    false
}

/// Appends what follows the rows of a table: an empty line, and a line for each id that is called by a number, with the
/// number, the decimal digits and the hexadecimal ones, as etcdctl's tables and etcd's logs show them. Nothing if no id is.
pub(crate) fn append_denoted(
    alloc: Global,
    text: &mut Vec<u8>,
    names: &Names,
) -> Result<(), NoMemory>
    ensures { OnOk result (text.new.items ≡ text.old.items ++ denoted_text names.now) }
{
    if names.numbered().is_empty() {
        return Ok(());
    }
    let mut rows = Vec::new(alloc);
    for id in names.numbered() {
        rows.push(denoted_row(alloc, names, *id)?)?;
    }
    append(text, b"\n")?;
    append_grid(alloc, text, rows.as_slice())
}

// The row of an id: its name, its decimal and its hexadecimal digits.
fn denoted_row(alloc: Global, names: &Names, id: u64) -> Result<Row, NoMemory>
    ensures { IfOk result (λ row. row ≡ denoted_row (name_by names.now) id) }
{
    let mut name = Vec::new(alloc);
    names.append(&mut name, id)?;
    let mut decimal_digits = Vec::new(alloc);
    append_number(&mut decimal_digits, id)?;
    let mut row = Row::new(alloc);
    row.add(name)?;
    row.add(decimal_digits)?;
    row.add(format!(in alloc; "{id:x}")?.into_bytes())?;
    Ok(row)
}
