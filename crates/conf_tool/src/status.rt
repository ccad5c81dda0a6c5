//! How a run ends.

/// How a run without an error ends: exit status 0 or 1.
#[derive(Clone, Copy, Debug, PartialEq, Eq)]
pub enum Status {
    /// Everything is as expected: exit status 0.
    Clean,
    /// Something differs, there is no plan, a plan stalls, or a line of `next` is refused: exit status 1.
    Different,
}
