//! The report of the mode `check`: each directive whose actual output differs from the expected one, and the counts.
ghost use Rattle.std.specs.Prelude.{◌≡◌, ◌≤◌, ◌<◌, ◌+◌, ◌^◌, [], ◌∷◌, ◌++◌, decimal, nat_lt, OnOk, if◌then◌else◌};
ghost use Rattle.ascii_text.specs.Lines.{newline, without_last};
ghost use Rattle.conf_tool.specs.Outputs.{check_status};
ghost use Rattle.conf_tool.specs.Reports.{marked, difference_text, counts_line};

use crate::status::Status;
use ascii_text::append::append_number;
use ascii_text::lines::{ends_in_newline, next_full_line};
use dd_file::item::Directive;
use quorum_sets::NoMemory;

/// How many directives there were, and for how many the actual output differs from the expected one.
#[derive(Drop)]
pub(crate) struct Counts {
    directives: usize,
    mismatches: usize,
    ghost among: { mismatches ≤ directives },
}

impl Counts {
    pub(crate) fn new() -> Counts
        ensures directives { result.directives ≡ 0 }
        ensures mismatches { result.mismatches ≡ 0 }
    {
        Counts {
            directives: 0,
            mismatches: 0,
        }
    }

    /// Counts a directive.
    pub(crate) fn add(&mut self, differs: bool)
        requires { self.old.directives < 2 ^ 30 }
        ensures directives { self.new.directives ≡ self.old.directives + 1 }
        ensures mismatches { self.new.mismatches
            ≡ self.old.mismatches + (if differs then 1 else 0) }
    {
        self.directives += 1;
        if differs {
            self.mismatches += 1;
        }
    }

    pub(crate) fn status(&self) -> Status
        ensures { result ≡ check_status (nat_lt 0 self.now.mismatches) }
    {
        if self.mismatches > 0 {
            Status::Different
        } else {
            Status::Clean
        }
    }

    /// Appends the counts. On `NoMemory` a part of them may be appended.
    pub(crate) fn append_to(&self, text: &mut Vec<u8>) -> Result<(), NoMemory>
        ensures { OnOk result (text.new.items ≡ text.old.items
            ++ counts_line self.now.directives self.now.mismatches) }
    {
        append_count(text, self.directives)?;
        text.extend_from_slice(b" directives, ")?;
        append_count(text, self.mismatches)?;
        text.extend_from_slice(b" mismatches")?;
        text.push(b'\n')?;
        Ok(())
    }
}

/// Appends a directive's line number and command, its expected and its actual output. On `NoMemory` a part of that may
/// be appended.
pub(crate) fn append_difference(
    text: &mut Vec<u8>,
    directive: &Directive,
    actual: &[u8],
) -> Result<(), NoMemory>
    ensures { OnOk result (text.new.items ≡ text.old.items
        ++ difference_text actual.now directive.now) }
{
    append_count(text, directive.line())?;
    text.extend_from_slice(b": ")?;
    text.extend_from_slice(directive.command())?;
    text.push(b'\n')?;
    append_marked(text, b'-', directive.expected())?;
    append_marked(text, b'+', actual)
}

// Appends a count in decimal.
fn append_count(text: &mut Vec<u8>, count: usize) -> Result<(), NoMemory>
    ensures { OnOk result (text.new.items ≡ text.old.items ++ decimal count) }
{
    append_number(text, count as u64)?;
    Ok(())
}

// Appends each line of a text after a sign and a space.
fn append_marked(text: &mut Vec<u8>, sign: u8, bytes: &[u8]) -> Result<(), NoMemory>
    ensures { OnOk result (text.new.items ≡ text.old.items ++ marked (sign ∷ 32 ∷ []) bytes.now) }
{
    let mut rest = bytes;
    while let Some((full_line, suffix)) = next_full_line(rest) {
        text.extend_from_slice(&[sign, b' '])?;
        append_line(text, full_line)?;
        rest = suffix;
    }
    Ok(())
}

// Appends a line, and a newline if it does not end in one.
fn append_line(text: &mut Vec<u8>, full_line: &[u8]) -> Result<(), NoMemory>
    ensures { OnOk result (text.new.items ≡ text.old.items
        ++ (without_last 10 full_line.now ++ newline)) }
{
    text.extend_from_slice(full_line)?;
    if !ends_in_newline(full_line) {
        text.push(b'\n')?;
    }
    Ok(())
}
