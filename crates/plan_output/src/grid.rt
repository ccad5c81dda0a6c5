//! A grid of cells, laid out as lines of text.
//!
//! ```text
//! ["step", "majority"]           step         majority
//! ["now", "2 of 3"]        ->    now          2 of 3
//! ["1 simple v4", ""]            1 simple v4
//! ```
ghost use Rattle.std.specs.Prelude.{◌≡◌, ℕ, ◌<◌, ◌≤◌, ◌^◌, [], ◌∷◌, ◌++◌, length, slice_index, IfOk, OnOk};
ghost use Rattle.plan_output.specs.Grid.{cell, width, cells_text, line_of_row, grid_text};

use ascii_text::append::{append, append_times};
use ascii_text::white_space::without_trailing_space;
use quorum_sets::NoMemory;
use std::alloc::Global;
use std::marker::Model;

/// A row: its cells, from left to right. Rows of one grid may have different lengths.
#[derive(Drop)]
pub(crate) struct Row {
    cells: Vec<Vec<u8>>,
}

impl Model for Row {
    ghost use Rattle.std.specs.Prelude.{ℕ, List, map};

    ghost Value = { List (List ℕ) };

    ghost view = { λ row. map (λ cell. cell.items) row.cells.items };
}

impl Row {
    /// A row without cells.
    pub(crate) fn new(alloc: Global) -> Row
        ensures { result ≡ [] }
    {
        Row {
            cells: Vec::new(alloc),
        }
    }

    /// Adds a cell at the right.
    pub(crate) fn add(&mut self, cell: Vec<u8>) -> Result<(), NoMemory>
        ensures { OnOk result (self.new ≡ self.old ++ cell.items ∷ []) }
    {
        self.cells.push(cell)?;
        Ok(())
    }

    fn len(&self) -> usize
        ensures { result ≡ length self.now }
    {
        self.cells.len()
    }

    // The cell in a column, counted from 0; an empty one in a column that the row does not reach.
    fn cell(&self, column: usize) -> &[u8]
        ensures cell { result.now ≡ cell column self.now }
        ensures small { length result.now < 2 ^ 63 }
    {
        match self.cells.get(column) {
            Some(cell) => cell.as_slice(),
            None => &[],
        }
    }
}

/// Appends rows as lines. Each column is as wide as its widest cell, columns are two spaces apart, and no line has white
/// space at its end (own).
pub(crate) fn append_grid(alloc: Global, text: &mut Vec<u8>, rows: &[Row]) -> Result<(), NoMemory>
    ensures { OnOk result (text.new.items ≡ text.old.items ++ grid_text rows.now) }
{
    let widths = widths(alloc, rows)?;
    for row in rows {
        append_line(text, row, widths.as_slice())?;
    }
    Ok(())
}

// The width of each column: that of its widest cell.
fn widths(alloc: Global, rows: &[Row]) -> Result<Vec<usize>, NoMemory>
    ensures widths { IfOk result (λ widths. (column : ℕ) → slice_index widths.items column
        ≡ width rows.now column) }
    ensures small { IfOk result (λ widths. (column : ℕ)
        → slice_index widths.items column < 2 ^ 63) }
{
    let mut widths = Vec::new(alloc);
    for column in 0..columns(rows) {
        widths.push(width(rows, column))?;
    }
    Ok(widths)
}

// The number of columns that some row reaches.
fn columns(rows: &[Row]) -> usize
    ensures { (column : ℕ) → result ≤ column → width rows.now column ≡ 0 }
{
    let mut columns = 0usize;
    for row in rows {
        columns = columns.max(row.len());
    }
    columns
}

// The width of a column, counted from 0.
fn width(rows: &[Row], column: usize) -> usize
    ensures width { result ≡ width rows.now column }
    ensures small { result < 2 ^ 63 }
{
    let mut width = 0usize;
    for row in rows {
        width = width.max(row.cell(column).len());
    }
    width
}

// Appends the line of a row: its cells, without the spaces at the end.
fn append_line(text: &mut Vec<u8>, row: &Row, widths: &[usize]) -> Result<(), NoMemory>
    requires { (column : ℕ) → slice_index widths.now column < 2 ^ 63 }
    ensures { OnOk result (text.new.items
        ≡ text.old.items ++ line_of_row (slice_index widths.now) row.now) }
{
    let start = text.len();
    append_cells(text, row, widths)?;
    let len = without_trailing_space(&text.as_slice()[start..]).len();
    text.truncate(start + len);
    append(text, b"\n")
}

// Appends the cells of a row, each padded with spaces to the width of its column and followed by two spaces.
fn append_cells(text: &mut Vec<u8>, row: &Row, widths: &[usize]) -> Result<(), NoMemory>
    requires { (column : ℕ) → slice_index widths.now column < 2 ^ 63 }
    ensures { OnOk result (text.new.items
        ≡ text.old.items ++ cells_text (slice_index widths.now) 0 row.now) }
{
    for column in 0..row.len() {
        let cell = row.cell(column);
        let width = widths.get(column).copied().unwrap_or(0);
        append(text, cell)?;
        append_times(text, b' ', width.saturating_sub(cell.len()))?;
        append(text, b"  ")?;
    }
    Ok(())
}
