//! The states of an item while its lines are read. Each line of this directive leads to the state beside it:
//!
//! ```text
//! simple a=1 \       DirectiveLines
//!   b=2              Input
//! v1 v2              Input
//! ----               Separator
//! ----               Double
//! voters=(1 2)       Double
//! ----               Dashes, since one line of dashes may be output
//! ----               Pair
//!                    Complete
//! ```
ghost use Rattle.std.specs.Prelude.{◌≡◌};
ghost use Rattle.dd_file.specs.ItemDraft.{is_done};

/// The state of an item after the lines so far, which decides what its next line is.
#[derive(Clone, Copy)]
pub(crate) enum DraftState {
    /// It has no line yet.
    Begin,
    /// It is a comment.
    CommentLine,
    /// It is a blank.
    BlankLines,
    /// It has directive lines so far, all of them continued.
    DirectiveLines,
    /// Its directive lines are not valid.
    NoCommand,
    /// Its directive lines are complete. Lines of input follow, up to the separator.
    Input,
    /// The last line was the separator.
    Separator,
    /// Lines of expected output follow, up to a blank line.
    Single,
    /// Lines of expected output follow, up to a pair of dashes.
    Double,
    /// The same, after a line of dashes: it is the first of the closing pair, or output.
    Dashes,
    /// The last two lines were the closing pair of dashes.
    Pair,
    /// It is a complete directive.
    Complete,
    /// The line after the closing pair was not blank.
    AfterPair,
}

impl DraftState {
    /// Whether the item is complete: the next line begins another item.
    pub(crate) fn is_done(self) -> bool
        ensures { result ≡ is_done self }
    {
        matches!(
            self,
            DraftState::CommentLine
                | DraftState::BlankLines
                | DraftState::NoCommand
                | DraftState::Complete
                | DraftState::AfterPair
        )
    }
}
