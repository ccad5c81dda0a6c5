//! Between which calls of a rewriter it is.

/// What a rewriter expects next. After a directive its actual output is expected, and after any other item the next
/// item or the end (own).
#[derive(Clone, Copy, Debug, PartialEq, Eq)]
pub enum Expecting {
    /// An item, or the end.
    Ready,
    /// The actual output of the last directive.
    NeedsOutput,
    /// Nothing: the end was written.
    Over,
    /// Nothing: a write failed.
    Failed,
}
