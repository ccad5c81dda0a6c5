//! A line of an input (own).
ghost use Rattle.std.specs.Prelude.{◌≡◌};

use crate::draft::Draft;
use crate::fault::FileFault;
use smallvec::SmallVec;
use std::alloc::{AllocError, Global};
use std::marker::Model;
use std::mem::swap;

/// A line without its newline. It need not be UTF-8.
#[derive(Drop)]
pub struct Line {
    bytes: SmallVec<u8, 32>,
}

impl Model for Line {
    ghost use Rattle.std.specs.Prelude.{List, ℕ};

    ghost Value = { List ℕ };

    ghost view = { λ a. a.bytes.items };
}

impl Line {
    /// The bytes of the line.
    pub fn as_slice(&self) -> &[u8]
        ensures { result.now ≡ self.now }
    {
        self.bytes.as_slice()
    }
}

/// A line while it is read: an item of one line, which is complete once it is there.
#[derive(Drop)]
pub struct LineDraft {
    line: Line,
    has_line: bool,
}

impl Model for LineDraft {
    ghost use Rattle.std.specs.Prelude.{List, ℕ, Option, Some, None, if◌then◌else◌};

    ghost Value = { Option (List ℕ) };

    ghost view = { λ a. if a.has_line then Some a.line else None };
}

impl Draft for LineDraft {
    type Part = Line;

    ghost use Rattle.std.specs.Prelude.{⊤};
    ghost use Rattle.dd_file.specs.Script.{first_line_of};
    ghost use Rattle.dd_file.specs.Answer.{IsLineFault};
    ghost use Rattle.dd_file.specs.Draft.{begun_line};

    ghost first_item = { first_line_of };

    ghost numbered = { λ first line. line };

    ghost IsFault = { IsLineFault };

    ghost begun = { begun_line };

    ghost Fits = { λ draft. ⊤ };

    fn parts_are_of_a_grammar() {}

    fn no_part(alloc: Global) -> Line {
        Line {
            bytes: SmallVec::new(alloc),
        }
    }

    fn new(alloc: Global) -> LineDraft {
        LineDraft {
            line: Self::no_part(alloc),
            has_line: false,
        }
    }

    fn clear(&mut self) {
        self.has_line = false;
    }

    fn add(&mut self, line: &[u8]) -> Result<bool, AllocError> {
        self.line.bytes.clear();
        self.line.bytes.extend_from_slice(line)?;
        self.has_line = true;
        Ok(true)
    }

    fn finish(&mut self, first: usize, last: usize, line: &mut Line) -> Result<bool, FileFault> {
        let _ = (first, last);
        swap(line, &mut self.line);
        Ok(self.has_line)
    }
}
