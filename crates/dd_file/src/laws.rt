//! Laws of scripts that are rewritten or joined (own).
//!
//! A law is a function that does nothing, and whose contract is a theorem. These are what a user relies on: a rewritten
//! script is read back as the script that it was, with its actual outputs as the expected ones.
ghost use Rattle.std.specs.Prelude.{◌≡◌};
ghost use Rattle.dd_file.specs.Gathered.{buffered_writer, NothingBuffered};
ghost use Rattle.dd_file.specs.Laws.{ItemsAreWellFormed, DirectiveIsWellFormed, WrittenScript, ItemsHaveKeys, JoinedItems};

use crate::blocks::Blocks;
use crate::device::Sink;

/// The items of a script, up to its error, are items of the grammar.
pub fn items_are_well_formed()
    ensures { ItemsAreWellFormed }
{}

/// A directive with one directive line, lines of input and no expected output is an item of the grammar. So directives
/// that a program makes itself are read back too.
pub fn directive_is_well_formed()
    ensures { DirectiveIsWellFormed }
{}

/// Items of the grammar that are written with actual outputs are read back in order. An empty line at the end may be
/// missing, since its newline is dropped.
pub fn written_script()
    ensures { WrittenScript }
{}

/// The keys of all arguments in a script are keys of the grammar: one or more ASCII letters, digits or bytes of `-_/,.`.
pub fn items_have_keys()
    ensures { ItemsHaveKeys }
{}

/// A complete script followed by two newlines and any text has the directives of the script, and then those of the
/// text. So two scripts can be concatenated.
pub fn joined_items()
    ensures { JoinedItems }
{}

/// Once the blocks are flushed, their writer has all bytes that were written to them.
pub fn nothing_waits<W: Sink>()
    ensures { (blocks : Blocks W) → NothingBuffered blocks
        → ⟦<Blocks<W> as Sink>⟧.contents blocks ≡ W.contents (buffered_writer blocks) }
{}
