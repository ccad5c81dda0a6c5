//! The items of a script. Each keeps its lines as they were written, and a directive also what they parse to.
//!
//! A program needs both: it runs a directive by its command, arguments and input, and writes it again from its raw
//! lines, so that spaces, continued lines and the order of arguments stay as they were. What does not name datadriven is
//! own.
ghost use Rattle.std.specs.Prelude.{◌≡◌, [], ◌∷◌, true, false, map, IfOk, option_map, slice_get, MatchOption};
ghost use Rattle.dd_file.specs.Script.{directive};
ghost use Rattle.dd_file.specs.DirectiveLine.{has_keys, command_of};

use crate::command::{Command, parse_command};
use crate::item_draft::DraftParts;
use crate::raw_lines::RawLines;
pub use crate::values::Values;
use crate::values::ValuesKind;
use ascii_text::white_space::trimmed;
use smallvec::SmallVec;
use std::alloc::{AllocError, Global};
use std::marker::Model;

/// An argument of a directive: a key and its values. `cfg=(1, 2)` has the key `cfg` and the values `1` and `2`
/// (datadriven's `CmdArg`).
#[derive(Drop)]
pub struct Argument {
    /// The key, and then the text of the values.
    text: SmallVec<u8, 32>,
    key_len: usize,
    kind: ValuesKind,
}

impl Model for Argument {
    ghost use Rattle.std.specs.Prelude.{◌≤◌, length, take, drop};
    ghost use Rattle.dd_file.specs.ArgumentValues.{values_left};
    ghost use Rattle.dd_file.specs.DirectiveLine.{ArgumentText, with_key};

    ghost Value = { ArgumentText };

    ghost view = { λ a. with_key (take a.key_len a.text.items)
        (values_left a.kind (drop a.key_len a.text.items)) };

    ghost invariant = { λ a. a.key_len ≤ length a.text.items };
}

impl Argument {
    ghost use Rattle.dd_file.specs.DirectiveLine.{with_key};

    pub(crate) fn new(alloc: Global, key: &[u8], values: Values<'_>) -> Result<Argument, AllocError>
        ensures { IfOk result (λ argument. argument ≡ with_key key.now values.entry) }
    {
        let mut text = SmallVec::from_slice(alloc, key)?;
        text.extend_from_slice(values.text)?;
        Ok(Argument {
            text,
            key_len: key.len(),
            kind: values.kind,
        })
    }

    /// The key: what is before the `=`, or the whole argument if it has no `=`. It is never empty (datadriven's
    /// `CmdArg.Key`).
    pub fn key(&self) -> &[u8]
        ensures { result.now ≡ self.now.key }
    {
        &self.text.as_slice()[..self.key_len]
    }

    /// The values in order; there may be none (datadriven's `CmdArg.Vals`).
    pub fn values(&self) -> Values<'_>
        ensures { result ≡ self.now.values }
    {
        Values {
            text: &self.text.as_slice()[self.key_len..],
            kind: self.kind,
        }
    }

    /// The value at an index, counted from 0; `None` after the last (datadriven's `CmdArg.Vals`).
    pub fn value(&self, i: usize) -> Option<&[u8]>
        ensures { option_map (λ value. value.now) result ≡ slice_get self.now.values i }
    {
        let mut values = self.values();
        for _passed in 0..i {
            values.next()?;
        }
        values.next()
    }
}

/// A directive of a script: a command with arguments, its input, and its expected output (datadriven's `TestData`).
#[derive(Drop)]
pub struct Directive {
    line: usize,
    parts: DraftParts,
}

impl Model for Directive {
    ghost use Rattle.dd_file.specs.DirectiveText.{DirectiveText};
    ghost use Rattle.dd_file.specs.ItemDraft.{directive_of};

    ghost Value = { DirectiveText };

    ghost view = { λ a. directive_of a.line a.parts };
}

impl Directive {
    /// The line at which the directive begins, counted from 1 (datadriven's `TestData.Pos`).
    pub fn line(&self) -> usize
        ensures { result ≡ self.now.line }
    {
        self.line
    }

    /// The command, never empty (datadriven's `TestData.Cmd`).
    pub fn command(&self) -> &[u8]
        ensures { result.now ≡ self.now.command }
    {
        self.parts.command.name.as_slice()
    }

    /// The argument at an index, counted from 0; `None` after the last.
    pub fn arg(&self, i: usize) -> Option<&Argument>
        ensures { option_map (λ argument. argument.now) result ≡ slice_get self.now.arguments i }
    {
        self.parts.command.arguments.get(i)
    }

    /// The arguments, in the order of the directive line (datadriven's `TestData.CmdArgs`).
    pub fn arguments(&self) -> &[Argument]
        ensures arguments { result.now ≡ self.now.arguments }
        ensures keys { has_keys self.now.arguments ≡ true }
    {
        self.parts.command.arguments.as_slice()
    }

    /// The input: what is between the directive line and the separator, trimmed (datadriven's `TestData.Input`).
    pub fn input(&self) -> &[u8]
        ensures { result.now ≡ self.now.input }
    {
        trimmed(self.parts.input())
    }

    /// The expected output: whole lines, or nothing (datadriven's `TestData.Expected`).
    pub fn expected(&self) -> &[u8]
        ensures { result.now ≡ self.now.expected }
    {
        self.parts.expected.text()
    }
}

/// What an item is.
#[derive(Clone, Copy)]
pub(crate) enum ItemKind {
    Comment,
    Blank,
    Directive,
}

/// An item of a script: a comment, one line whose first byte that is not white space is `#`; a blank, a line of white
/// space only, or continued lines that hold nothing but their backslashes; or a directive, a command with its input and
/// its expected output. Every line of a script belongs to one of its items (datadriven returns directives alone).
#[derive(Drop)]
pub struct Item {
    kind: ItemKind,
    /// The directive. A comment or a blank has its raw lines in one too.
    directive: Directive,
}

impl Model for Item {
    ghost use Rattle.dd_file.specs.Items.{Item as ItemText, item_of};

    ghost Value = { ItemText };

    ghost view = { λ a. item_of a.kind a.directive };
}

impl Item {
    ghost use Rattle.dd_file.specs.Items.{Comment, Directive as OfDirective, item_of};
    ghost use Rattle.dd_file.specs.ItemDraft.{directive_of};
    ghost use Rattle.dd_file.specs.Rewritten.{raw_lines_of, kept_text, is_directive};

    /// A comment of one line, which should begin with `#`: this is not checked. It fails only if memory runs out.
    pub fn comment(alloc: Global, line: Vec<u8>) -> Result<Item, AllocError>
        ensures { IfOk result (λ item. item ≡ Comment (line.items ∷ [])) }
    {
        let parts = DraftParts::of_lines(alloc, line, Command::none(alloc), &[])?;
        Ok(Item {
            kind: ItemKind::Comment,
            directive: Directive { line: 1, parts },
        })
    }

    /// A directive that a program makes itself, at line 1: a directive line, lines of input, and no expected output.
    /// `None` if the directive line is not valid. It fails only if memory runs out.
    pub fn directive(
        alloc: Global,
        line: Vec<u8>,
        input: &[Vec<u8>],
    ) -> Result<Option<Item>, AllocError>
        ensures { IfOk result (λ item. item ≡
            option_map (λ command. directive 1 command (line.items ∷ [])
            (map (λ line. line.items) input.now) [])
            (command_of line.items)) }
    {
        let Some(command) = parse_command(alloc, line.as_slice())? else {
            return Ok(None);
        };
        let parts = DraftParts::of_lines(alloc, line, command, input)?;
        Ok(Some(Item {
            kind: ItemKind::Directive,
            directive: Directive { line: 1, parts },
        }))
    }

    /// A blank without lines.
    pub(crate) fn empty(alloc: Global) -> Item {
        Item {
            kind: ItemKind::Blank,
            directive: Directive {
                line: 1,
                parts: DraftParts::new(alloc),
            },
        }
    }

    /// Becomes the item of a draft's parts that begins at this line. The draft gets the memory of the item before.
    #[inline(always)]
    pub(crate) fn fill(&mut self, kind: ItemKind, line: usize, parts: &mut DraftParts)
        ensures { self.new ≡ item_of kind (directive_of line parts.old) }
    {
        self.kind = kind;
        match kind {
            ItemKind::Comment | ItemKind::Blank => self.directive.parts.swap_raw_lines(parts),
            ItemKind::Directive => {
                self.directive.line = line;
                self.directive.parts.swap(parts);
            }
        }
    }

    /// The directive, if the item is one.
    pub fn as_directive(&self) -> Option<&Directive>
        ensures { MatchOption result (is_directive self.now ≡ false)
            (λ directive. self.now ≡ OfDirective directive.now) }
    {
        match self.kind {
            ItemKind::Directive => Some(&self.directive),
            ItemKind::Comment | ItemKind::Blank => None,
        }
    }

    /// The raw line at an index, counted from 0; `None` after the last. The raw lines of a directive end before its
    /// separator.
    pub fn raw_line(&self, i: usize) -> Option<&[u8]>
        ensures { option_map (λ line. line.now) result ≡ slice_get (raw_lines_of self.now) i }
    {
        self.raw_lines().get(i)
    }

    /// The raw lines as one text, each with a newline.
    pub(crate) fn raw_text(&self) -> &[u8]
        ensures { result.now ≡ kept_text self.now }
    {
        self.raw_lines().text()
    }

    fn raw_lines(&self) -> &RawLines
        ensures { result.now ≡ raw_lines_of self.now }
    {
        self.directive.parts.raw_lines()
    }

    /// Whether the item is a directive, after which an output is written.
    pub(crate) fn is_directive(&self) -> bool
        ensures { result ≡ is_directive self.now }
    {
        self.as_directive().is_some()
    }
}
