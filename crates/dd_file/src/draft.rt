//! A part of an input, an item or a line, while its lines are read.
ghost use Rattle.std.specs.Prelude.{◌≡◌, ℕ, List, false, IfOk, OnOk};
ghost use Rattle.dd_file.specs.Position.{Position, longest_input};
ghost use Rattle.dd_file.specs.Script.{FirstItem};
ghost use Rattle.dd_file.specs.Grammar.{next_of};
ghost use Rattle.dd_file.specs.Draft.{BegunItem, IsBegun, IsGrammar, IsNew, Adds, finished, item_result};
ghost use Rattle.dd_file.specs.declared.fault.FileFault.{FileFault as ReadFault};

use crate::fault::FileFault;
use std::alloc::{AllocError, Global};

/// A part of an input while its lines are read, one at a time and without a look at the next one. In an input that is
/// read line by line, each line is a part.
pub trait Draft {
    /// What it is once its lines are read.
    type Part: Drop;

    /// The first part of some lines.
    ghost first_item: { List (List ℕ) → FirstItem Self.Part };

    /// A part that begins at the line with this number.
    ghost numbered: { ℕ → Self.Part → Self.Part };

    /// The errors that reading from a position on may return.
    ghost IsFault: { Position → ReadFault → Type 0 };

    /// The part, given any lines that follow.
    ghost begun: { Self → BegunItem Self.Part };

    /// Whether the draft can have a next line.
    ghost Fits: { Self → Type 0 };

    /// A law: the parts are those of a grammar, and a draft that fits is ended or open.
    fn parts_are_of_a_grammar()
        ensures grammar { IsGrammar (next_of first_item numbered longest_input) IsFault }
        ensures begun { (draft : Self) → Fits draft → IsBegun (begun draft) };

    /// A part without memory, for `finish` to fill.
    fn no_part(alloc: Global) -> Self::Part;

    /// A draft without lines.
    fn new(alloc: Global) -> Self
        ensures { IsNew first_item begun Fits result };

    /// Drops all lines, and keeps the memory.
    fn clear(&mut self)
        ensures { IsNew first_item begun Fits self.new };

    /// Adds the next line, and returns whether the part ends with it. If memory runs out, the draft is no longer usable.
    fn add(&mut self, line: &[u8]) -> Result<bool, AllocError>
        requires fits { Fits self.old }
        requires open_end { (begun self.old).is_done ≡ false }
        ensures kept { OnOk result (Fits self.new) }
        ensures added { OnOk result (Adds (begun self.old) line.now (begun self.new)) }
        ensures done { IfOk result (λ done. done ≡ (begun self.new).is_done) };

    /// Makes `part` the part of the lines so far, if no further line comes, and returns whether there are lines. The first
    /// and the last line of the part have these numbers. The draft takes the buffers that `part` had.
    fn finish(
        &mut self,
        first: usize,
        last: usize,
        part: &mut Self::Part,
    ) -> Result<bool, FileFault>
        ensures { finished part.new result
            ≡ item_result numbered first last (begun self.old).result };
}
