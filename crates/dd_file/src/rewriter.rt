//! Rewriting a script with its actual outputs: the items stay as they were, and the output below each separator is
//! replaced. Here `/` separates lines:
//!
//! ```text
//! keep              found                 what is written
//! # a comment                             # a comment
//! simple / v1       voters=(1)            simple / v1 / ---- / voters=(1) / (empty line)
//! show              a / (blank) / b       show / ---- / ---- / a / (blank) / b / ---- / ---- / (empty line)
//! ```
//!
//! If the rewritten script ends in two newlines, the last one is dropped. So a newline at the end of the text so far is
//! pending: it is written only when more text follows, or at the end. A rewriter stores no text, only how many newlines
//! the text so far ends in.
ghost use Rattle.std.specs.Prelude.{◌≡◌, ℕ, List, [], ◌∷◌, ◌++◌, ◌==◌, Option, OnOk, OnErr, IfOk, true, false, if◌then◌else◌};
ghost use Rattle.ascii_text.specs.Lines.{newline, without_last};
ghost use Rattle.dd_file.specs.RewriterState.{CanKeep, IsOutputNext, HasWritten, Continues, BreaksOff, WritesMore, WritesEnd};
ghost use Rattle.dd_file.specs.Rewritten.{kept_text, output_text, opening, closing, entry_text, has_blank_line, is_output, is_directive, newlines_at_end, pending_newline, without_double_end};

use crate::device::Sink;
use crate::expecting::Expecting;
use crate::fault::WriteFault;
use crate::item::Item;
use crate::writing::write_all;
use ascii_text::NoMemory;
use ascii_text::append::append;
use ascii_text::lines::{next_full_line, strip_last};
use ascii_text::white_space::is_blank;
use std::marker::Model;
use std::mem::replace;

/// How many newlines a text ends in once a byte is added: 0, 1, or 2 for two or more.
fn count_newline(newlines: u8, byte: u8) -> u8
    ensures { (text : List ℕ) → newlines ≡ newlines_at_end text → result
        ≡ newlines_at_end (text ++ byte ∷ []) }
{
    if byte != b'\n' {
        return 0;
    }
    if newlines == 0 { 1 } else { 2 }
}

/// How many newlines a text ends in once bytes are added. If these are two or more, the last two decide.
pub fn count_newlines(newlines: u8, bytes: &[u8]) -> u8
    ensures { (text : List ℕ) → newlines ≡ newlines_at_end text → result
        ≡ newlines_at_end (text ++ bytes.now) }
{
    let Some((last, prefix)) = bytes.split_last() else {
        return newlines;
    };
    match prefix.split_last() {
        None => count_newline(newlines, *last),
        Some((before, _)) => count_newline(count_newline(0, *before), *last),
    }
}

/// What is left to write at the end of the script: the pending newline, unless the text ends in two.
pub fn last_newline(newlines: u8) -> &'static [u8]
    ensures { result.now ≡ (if newlines == 1 then newline else []) }
{
    if newlines == 1 { b"\n" } else { b"" }
}

/// Writes more text after a text that ends in this many newlines; a newline at its end stays pending. Returns how many
/// newlines the whole text ends in.
fn write_text<W: Sink>(writer: &mut W, newlines: u8, text: &[u8]) -> Result<u8, WriteFault>
    ensures ok { IfOk result (λ count. Continues newlines count (W.contents writer.old)
        (W.contents writer.new) text.now) }
    ensures err { OnErr result (BreaksOff newlines (W.contents writer.old) (W.contents writer.new)
        text.now) }
    ensures failed { OnErr result (W.has_failed writer.new ≡ true) }
    ensures sound { OnOk result (W.has_failed writer.new ≡ W.has_failed writer.old) }
{
    if text.is_empty() {
        return Ok(newlines);
    }
    write_all(writer, pending_newline(newlines))?;
    write_all(writer, strip_last(text, b'\n'))?;
    Ok(count_newlines(newlines, text))
}

/// Whether an output has a blank line, which would end it after a single separator (datadriven).
fn needs_double(text: &[u8]) -> bool
    ensures { result ≡ has_blank_line text.now }
{
    let mut rest = text;
    while let Some((full_line, suffix)) = next_full_line(rest) {
        if is_blank(full_line) {
            return true;
        }
        rest = suffix;
    }
    false
}

/// The text before an output: the pending newline, and a single or a double separator.
fn before_output(newlines: u8, double: bool) -> &'static [u8]
    ensures { result.now ≡ (if newlines == 0 then [] else newline) ++ opening double }
{
    if newlines == 0 {
        return if double { b"----\n----\n" } else { b"----\n" };
    }
    if double {
        b"\n----\n----\n"
    } else {
        b"\n----\n"
    }
}

/// The text after an output: the closing pair of a double separator, and the empty line that ends the item.
fn after_output(double: bool) -> &'static [u8]
    ensures { result.now ≡ closing double }
{
    if double { b"----\n----\n\n" } else { b"\n" }
}

/// Writes an output with its separators; the newline at its end stays pending. Returns how many newlines the whole text
/// ends in.
fn write_output<W: Sink>(writer: &mut W, newlines: u8, text: &[u8]) -> Result<u8, WriteFault>
    ensures ok { IfOk result (λ count. Continues newlines count (W.contents writer.old)
        (W.contents writer.new)
        (output_text text.now)) }
    ensures err { OnErr result (BreaksOff newlines (W.contents writer.old) (W.contents writer.new)
        (output_text text.now)) }
    ensures failed { OnErr result (W.has_failed writer.new ≡ true) }
    ensures sound { OnOk result (W.has_failed writer.new ≡ W.has_failed writer.old) }
{
    let double = needs_double(text);
    let suffix = after_output(double);
    write_all(writer, before_output(newlines, double))?;
    write_all(writer, text)?;
    write_all(writer, strip_last(suffix, b'\n'))?;
    // The separator before the output ends in one newline.
    Ok(count_newlines(count_newlines(1, text), suffix))
}

// The newline that is pending after a text that ends in this many: it is appended once more text follows.
fn pending_newline(newlines: u8) -> &'static [u8]
    ensures { result.now ≡ pending_newline newlines }
{
    if newlines == 0 { b"" } else { b"\n" }
}

/// Takes back a newline at the end of a text, which is pending from then on.
pub fn hold_newline(text: &mut Vec<u8>)
    ensures { text.new.items ≡ without_last 10 text.old.items }
{
    let end = strip_last(text.as_slice(), b'\n').len();
    text.truncate(end);
}

/// Ends a script that is one text: drops the last newline if it ends in two.
pub fn end_script(text: &mut Vec<u8>)
    ensures { text.new.items ≡ without_double_end text.old.items }
{
    if text.as_slice().ends_with(b"\n\n") {
        hold_newline(text);
    }
}

/// Appends an item with its actual output, which has no blank line.
pub fn append_entry(text: &mut Vec<u8>, item: &Item, actual: &[u8]) -> Result<(), NoMemory>
    requires { has_blank_line actual.now ≡ false }
    ensures { OnOk result (text.new.items ≡ text.old.items ++ entry_text item.now actual.now) }
{
    append(text, item.raw_text())?;
    if item.is_directive() {
        append(text, b"----\n")?;
        append(text, actual)?;
        append(text, b"\n")?;
    }
    Ok(())
}

/// Writes the items of a script with their actual outputs to a [`Sink`]. After an error nothing more is written, and
/// each call fails (datadriven's `-rewrite`).
#[derive(Drop)]
pub struct Rewriter {
    expecting: Expecting,
    newlines: u8,
}

impl Model for Rewriter {
    ghost use Rattle.dd_file.specs.RewriterState.{RewriterState};

    ghost Value = { RewriterState };

    ghost view = { λ a. record { expecting = a.expecting; newlines = a.newlines } };
}

impl Rewriter {
    /// A rewriter at the beginning of its script, with nothing written.
    pub fn new() -> Rewriter
        ensures expecting { result.expecting ≡ Expecting.Ready }
        ensures nothing { (start : Option (List ℕ)) → HasWritten result.newlines start start [] }
    {
        Rewriter {
            expecting: Expecting::Ready,
            newlines: 0,
        }
    }

    /// Writes the raw lines of an item, as they are. After a directive, the next call has to write its actual output,
    /// by `found`. It fails if a write fails, or has failed before (datadriven).
    pub fn keep<W: Sink>(&mut self, writer: &mut W, item: &Item) -> Result<(), WriteFault>
        requires { CanKeep self.old }
        ensures { WritesMore W.contents W.has_failed self.old self.new writer.old writer.new
            (if is_directive item.now then Expecting.NeedsOutput else Expecting.Ready)
            (kept_text item.now) result }
    {
        if replace(&mut self.expecting, Expecting::Failed) == Expecting::Failed {
            return Err(WriteFault);
        }
        self.newlines = write_text(writer, self.newlines, item.raw_text())?;
        self.expecting = if item.is_directive() {
            Expecting::NeedsOutput
        } else {
            Expecting::Ready
        };
        Ok(())
    }

    /// Writes the actual output of the directive that was kept last, between double separators if it has a blank line.
    /// It fails if a write fails, or has failed before (datadriven).
    pub fn found<W: Sink>(&mut self, writer: &mut W, text: &[u8]) -> Result<(), WriteFault>
        requires output_next { IsOutputNext self.old }
        requires output { self.old.expecting ≡ Expecting.NeedsOutput → is_output text.now ≡ true }
        ensures { WritesMore W.contents W.has_failed self.old self.new writer.old writer.new
            Expecting.Ready (output_text text.now) result }
    {
        if replace(&mut self.expecting, Expecting::Failed) == Expecting::Failed {
            return Err(WriteFault);
        }
        self.newlines = write_output(writer, self.newlines, text)?;
        self.expecting = Expecting::Ready;
        Ok(())
    }

    /// Ends the script: writes the pending newline, unless the text ends in two. It fails if a write fails, or has
    /// failed before (datadriven, which however keeps a text of just two newlines).
    pub fn end<W: Sink>(&mut self, writer: &mut W) -> Result<(), WriteFault>
        requires { CanKeep self.old }
        ensures { WritesEnd W.contents W.has_failed self.old self.new writer.old writer.new result }
    {
        if replace(&mut self.expecting, Expecting::Failed) == Expecting::Failed {
            return Err(WriteFault);
        }
        write_all(writer, last_newline(self.newlines))?;
        self.expecting = Expecting::Over;
        Ok(())
    }
}
