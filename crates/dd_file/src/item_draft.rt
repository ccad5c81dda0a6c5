//! An item of a script while its lines are read.
//!
//! A reader gets one line at a time, and cannot look ahead. So a draft decides what each line is by the state that the
//! lines before it have led to ([`DraftState`]): a directive line, input, expected output, or a line that is not
//! stored, such as a separator. It reports when the item is complete. Lines that come after that belong to the next
//! item.
ghost use Rattle.std.specs.Prelude.{◌≡◌, [], ◌∷◌, ◌++◌, false, map, IfOk, OnOk};
ghost use Rattle.ascii_text.specs.Lines.{text_of};
ghost use Rattle.dd_file.specs.ItemDraft.{FitsIn, AddsIn, draft_after_directive_lines, is_done};

use crate::command::{Command, parse_command};
use crate::draft::Draft;
use crate::draft_state::DraftState;
use crate::fault::{FileFault, SyntaxFault};
use crate::item::{Item, ItemKind};
use crate::joined_lines::joined;
use crate::line_kinds::{is_comment, is_continued, is_dashes, is_separator};
use crate::raw_lines::RawLines;
use ascii_text::white_space::{is_blank, trimmed};
use std::alloc::{AllocError, Global};
use std::marker::Model;
use std::mem::swap;

/// The lines of an item so far, by the parts that they belong to.
#[derive(Drop)]
pub(crate) struct DraftParts {
    alloc: Global,
    /// The directive lines, and then the lines of the input.
    raw_lines: RawLines,
    /// How many of the raw lines are directive lines.
    directive_line_count: usize,
    /// The command of the directive lines, once they are complete.
    pub(crate) command: Command,
    pub(crate) expected: RawLines,
}

impl Model for DraftParts {
    ghost use Rattle.std.specs.Prelude.{◌≤◌, length, take, drop};
    ghost use Rattle.dd_file.specs.ItemDraft.{DraftParts as PartsText};

    ghost Value = { PartsText };

    ghost view = { λ a. record {
      directive_lines = take a.directive_line_count a.raw_lines;
      input = drop a.directive_line_count a.raw_lines;
      command = a.command;
      expected = a.expected;
    } };

    ghost invariant = { λ a. a.directive_line_count ≤ length a.raw_lines };
}

impl DraftParts {
    ghost use Rattle.dd_file.specs.ItemDraft.{no_parts};

    /// No lines.
    pub(crate) fn new(alloc: Global) -> DraftParts
        ensures { result ≡ no_parts }
    {
        DraftParts {
            alloc,
            raw_lines: RawLines::new(alloc),
            directive_line_count: 0,
            command: Command::none(alloc),
            expected: RawLines::new(alloc),
        }
    }

    /// One directive line with the command that it parses to, and lines of input.
    pub(crate) fn of_lines(
        alloc: Global,
        line: Vec<u8>,
        command: Command,
        input: &[Vec<u8>],
    ) -> Result<DraftParts, AllocError>
        ensures { IfOk result (λ parts. parts ≡ record {
          directive_lines = line.items ∷ [];
          input = map (λ line. line.items) input.now;
          command = command;
          expected = [];
        }) }
    {
        let mut raw_lines = RawLines::of_line(alloc, line)?;
        for input_line in input {
            raw_lines.push(input_line.as_slice())?;
        }
        Ok(DraftParts {
            alloc,
            raw_lines,
            directive_line_count: 1,
            command,
            expected: RawLines::new(alloc),
        })
    }

    /// Drops all lines, and keeps the memory.
    fn clear(&mut self)
        ensures { FitsIn DraftState.Begin self.new }
    {
        self.raw_lines.clear();
        self.directive_line_count = 0;
        self.expected.clear();
    }

    /// Exchanges the raw lines with others.
    #[inline(always)]
    pub(crate) fn swap_raw_lines(&mut self, other: &mut DraftParts)
        ensures { self.new ≡ record self.old {
          directive_lines = other.old.directive_lines;
          input = other.old.input;
        } }
    {
        swap(&mut self.raw_lines, &mut other.raw_lines);
        swap(
            &mut self.directive_line_count,
            &mut other.directive_line_count,
        );
    }

    /// Exchanges all lines and the command with others.
    #[inline(always)]
    pub(crate) fn swap(&mut self, other: &mut DraftParts)
        ensures { self.new ≡ other.old }
    {
        swap(&mut self.command, &mut other.command);
        swap(&mut self.expected, &mut other.expected);
        self.swap_raw_lines(other);
    }

    /// The directive lines, and then the lines of the input.
    pub(crate) fn raw_lines(&self) -> &RawLines
        ensures { result.now ≡ self.now.directive_lines ++ self.now.input }
    {
        &self.raw_lines
    }

    /// The lines of the input as one text, each with a newline.
    pub(crate) fn input(&self) -> &[u8]
        ensures { result.now ≡ text_of self.now.input }
    {
        self.raw_lines.text_after(self.directive_line_count)
    }

    /// Adds a line in this state, and returns the state after it.
    fn next_state(&mut self, state: DraftState, line: &[u8]) -> Result<DraftState, AllocError>
        requires fits { FitsIn state self.old }
        requires open_end { is_done state ≡ false }
        ensures { IfOk result (λ next. AddsIn state self.old next self.new line.now) }
    {
        match state {
            DraftState::Begin => self.add_first(line),
            DraftState::DirectiveLines => self.add_directive_line(line),
            DraftState::Input => self.add_input(line),
            DraftState::Separator => self.add_output(line),
            DraftState::Single => self.add_single(line),
            DraftState::Double => self.add_double(line),
            DraftState::Dashes => self.add_after_dashes(line),
            DraftState::Pair => Ok(self.add_after_pair(line)),
            done => Ok(done),
        }
    }

    /// Stores a line as a directive line. The line of a comment or a blank is stored as one too.
    fn keep_directive_line(&mut self, line: &[u8]) -> Result<(), AllocError>
        requires { self.old.input ≡ [] }
        ensures { OnOk result (self.new
            ≡ record self.old { directive_lines = self.old.directive_lines ++ line.now ∷ [] }) }
    {
        self.raw_lines.push(line)?;
        self.directive_line_count = self.raw_lines.count();
        Ok(())
    }

    /// Stores a line as input.
    fn keep_input(&mut self, line: &[u8]) -> Result<(), AllocError>
        ensures { OnOk result (self.new ≡ record self.old {
          input = self.old.input ++ line.now
              ∷ [];
        }) }
    {
        self.raw_lines.push(line)
    }

    /// Stores a line as expected output.
    fn keep_output(&mut self, line: &[u8]) -> Result<(), AllocError>
        ensures { OnOk result (self.new ≡ record self.old {
          expected = self.old.expected ++ line.now
              ∷ [];
        }) }
    {
        self.expected.push(line)
    }

    /// The first line decides the kind of the item: a comment, a blank, or a directive.
    fn add_first(&mut self, line: &[u8]) -> Result<DraftState, AllocError>
        requires fits { FitsIn DraftState.Begin self.old }
        ensures { IfOk result (λ next. AddsIn DraftState.Begin self.old next self.new line.now) }
    {
        if is_comment(line) {
            self.keep_directive_line(line)?;
            Ok(DraftState::CommentLine)
        } else if is_blank(line) {
            self.keep_directive_line(line)?;
            Ok(DraftState::BlankLines)
        } else {
            self.add_directive_line(line)
        }
    }

    /// The first line that is not continued ends the directive lines, and the command is parsed from all of them
    /// together.
    fn add_directive_line(&mut self, line: &[u8]) -> Result<DraftState, AllocError>
        requires fits { FitsIn DraftState.DirectiveLines self.old }
        ensures { IfOk result (λ next. AddsIn DraftState.DirectiveLines self.old next self.new
            line.now) }
    {
        self.keep_directive_line(line)?;
        if is_continued(line) {
            return Ok(DraftState::DirectiveLines);
        }
        if self.directive_line_count == 1 {
            return self.end_directive_lines(trimmed(line));
        }
        let text = joined(self.alloc, self.raw_lines())?;
        self.end_directive_lines(text.as_slice())
    }

    /// Parses the text of the complete directive lines, which may be blank, a command, or neither.
    fn end_directive_lines(&mut self, text: &[u8]) -> Result<DraftState, AllocError>
        ensures { IfOk result (λ state. record { parts = self.new; state = state }
            ≡ draft_after_directive_lines self.old text.now) }
    {
        if is_blank(text) {
            return Ok(DraftState::BlankLines);
        }
        match parse_command(self.alloc, text)? {
            Some(command) => {
                self.command = command;
                Ok(DraftState::Input)
            }
            None => Ok(DraftState::NoCommand),
        }
    }

    /// Input continues up to the separator, and may contain blank lines and lines that look like comments.
    fn add_input(&mut self, line: &[u8]) -> Result<DraftState, AllocError>
        requires fits { FitsIn DraftState.Input self.old }
        ensures { IfOk result (λ next. AddsIn DraftState.Input self.old next self.new line.now) }
    {
        if is_separator(line) {
            return Ok(DraftState::Separator);
        }
        self.keep_input(line)?;
        Ok(DraftState::Input)
    }

    /// The first line after the separator: dashes make it a double separator, and any other line a single one.
    fn add_output(&mut self, line: &[u8]) -> Result<DraftState, AllocError>
        requires fits { FitsIn DraftState.Separator self.old }
        ensures { IfOk result (λ next. AddsIn DraftState.Separator self.old next self.new
            line.now) }
    {
        if is_dashes(line) {
            return Ok(DraftState::Double);
        }
        self.add_single(line)
    }

    /// Expected output after a single separator continues up to a blank line.
    fn add_single(&mut self, line: &[u8]) -> Result<DraftState, AllocError>
        requires fits { FitsIn DraftState.Single self.old }
        ensures { IfOk result (λ next. AddsIn DraftState.Single self.old next self.new line.now) }
    {
        if is_blank(line) {
            return Ok(DraftState::Complete);
        }
        self.keep_output(line)?;
        Ok(DraftState::Single)
    }

    /// Expected output after a double separator continues up to two lines of dashes in a row.
    fn add_double(&mut self, line: &[u8]) -> Result<DraftState, AllocError>
        requires fits { FitsIn DraftState.Double self.old }
        ensures { IfOk result (λ next. AddsIn DraftState.Double self.old next self.new line.now) }
    {
        if is_dashes(line) {
            return Ok(DraftState::Dashes);
        }
        self.keep_output(line)?;
        Ok(DraftState::Double)
    }

    /// A second line of dashes closes the output; after any other line the first one is output.
    fn add_after_dashes(&mut self, line: &[u8]) -> Result<DraftState, AllocError>
        requires fits { FitsIn DraftState.Dashes self.old }
        ensures { IfOk result (λ next. AddsIn DraftState.Dashes self.old next self.new line.now) }
    {
        if is_dashes(line) {
            return Ok(DraftState::Pair);
        }
        self.keep_output(b"----")?;
        self.keep_output(line)?;
        Ok(DraftState::Double)
    }

    /// The line after the closing pair of dashes has to be blank, and belongs to the item (datadriven requires it to be
    /// empty).
    fn add_after_pair(&self, line: &[u8]) -> DraftState
        ensures { AddsIn DraftState.Pair self.now result self.now line.now }
    {
        let _ = self;
        if is_blank(line) {
            DraftState::Complete
        } else {
            DraftState::AfterPair
        }
    }
}

/// An item of a script while its lines are read.
#[derive(Drop)]
pub struct ItemDraft {
    parts: DraftParts,
    state: DraftState,
}

impl Model for ItemDraft {
    ghost use Rattle.dd_file.specs.ItemDraft.{DraftText};

    ghost Value = { DraftText };

    ghost view = { λ a. record { parts = a.parts; state = a.state } };
}

impl Draft for ItemDraft {
    type Part = Item;

    ghost use Rattle.dd_file.specs.Script.{first_of, at_line};
    ghost use Rattle.dd_file.specs.Answer.{IsItemFault};
    ghost use Rattle.dd_file.specs.ItemDraft.{FitsIn, begun_item};

    ghost first_item = { first_of };

    ghost numbered = { at_line };

    ghost IsFault = { IsItemFault };

    ghost begun = { begun_item };

    ghost Fits = { λ draft. FitsIn draft.state draft.parts };

    fn parts_are_of_a_grammar() {}

    fn no_part(alloc: Global) -> Item {
        Item::empty(alloc)
    }

    fn new(alloc: Global) -> ItemDraft {
        ItemDraft {
            parts: DraftParts::new(alloc),
            state: DraftState::Begin,
        }
    }

    fn clear(&mut self) {
        self.parts.clear();
        self.state = DraftState::Begin;
    }

    fn add(&mut self, line: &[u8]) -> Result<bool, AllocError> {
        self.state = self.parts.next_state(self.state, line)?;
        Ok(self.state.is_done())
    }

    // A script may end after the input, the separator or the output of a directive, but not within continued lines or
    // between double separators.
    #[inline(always)]
    fn finish(&mut self, first: usize, last: usize, item: &mut Item) -> Result<bool, FileFault> {
        let kind = match self.state {
            DraftState::Begin => return Ok(false),
            DraftState::CommentLine => ItemKind::Comment,
            DraftState::BlankLines => ItemKind::Blank,
            DraftState::DirectiveLines | DraftState::NoCommand => {
                return Err(SyntaxFault::BadDirective.between(first, last));
            }
            DraftState::Double | DraftState::Dashes => {
                return Err(SyntaxFault::UnclosedDouble.between(first, last));
            }
            DraftState::AfterPair => return Err(SyntaxFault::AfterDouble.between(first, last)),
            DraftState::Input
            | DraftState::Separator
            | DraftState::Single
            | DraftState::Pair
            | DraftState::Complete => ItemKind::Directive,
        };
        item.fill(kind, first, &mut self.parts);
        Ok(true)
    }
}
