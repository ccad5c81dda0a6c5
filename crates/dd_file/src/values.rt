//! An iterator over the values of an argument, which splits them off its text one at a time:
//!
//! ```text
//! (1, 2,3)    gives 1, then 2, then 3
//! true        gives true
//! ( )         gives nothing
//! ```
ghost use Rattle.std.specs.Prelude.{◌≡◌, [], ◌∷◌, MatchOption};
ghost use Rattle.dd_file.specs.DirectiveLine.{list_values};

use ascii_text::position::position_of;
use ascii_text::white_space::{is_blank, trimmed};
use std::marker::Model;

/// What a text of values is. It is empty after the last value of a list, and also before a last value that is empty: the
/// kind distinguishes the two.
#[derive(Clone, Copy, Debug)]
pub(crate) enum ValuesKind {
    /// No value.
    Nothing,
    /// One plain value.
    Plain,
    /// Values of a list, with commas between them.
    Listed,
}

/// The remaining values of an argument, in order (datadriven's `CmdArg.Vals`).
#[derive(Drop)]
pub struct Values<'a> {
    pub(crate) text: &'a [u8],
    pub(crate) kind: ValuesKind,
}

impl<'a> Model for Values<'a> {
    ghost use Rattle.std.specs.Prelude.{List, ℕ};
    ghost use Rattle.dd_file.specs.ArgumentValues.{values_left};

    ghost Value = { List (List ℕ) };

    ghost view = { λ v. values_left v.kind v.text.now };
}

impl<'a> Values<'a> {
    /// The values of a list, from the text between its parentheses.
    pub(crate) fn listed(text: &'a [u8]) -> Values<'a>
        ensures { result ≡ list_values text.now }
    {
        let kind = if is_blank(text) {
            ValuesKind::Nothing
        } else {
            ValuesKind::Listed
        };
        Values { text, kind }
    }

    /// The next value, without the white space around it; `None` at the end and from then on (own).
    pub fn next(&mut self) -> Option<&'a [u8]>
        ensures { MatchOption result ((self.old ≡ []) × (self.new ≡ [])) (λ value. self.old
            ≡ value.now ∷ self.new) }
    {
        match self.kind {
            ValuesKind::Nothing => None,
            ValuesKind::Plain => {
                self.kind = ValuesKind::Nothing;
                Some(self.text)
            }
            ValuesKind::Listed => {
                let (value, suffix) = self.text.split_at(position_of(self.text, b','));
                match suffix.split_first() {
                    Some((_, rest)) => self.text = rest,
                    None => self.kind = ValuesKind::Nothing,
                }
                Some(trimmed(value))
            }
        }
    }
}
