//! The modes of the program.

/// What the program does. `Check` and `Rewrite` do what datadriven does in a test, without and with `-rewrite`; the
/// other modes are own.
#[derive(Clone, Copy, Debug, PartialEq, Eq)]
pub enum Mode {
    /// Makes the changes of the input, one a line.
    Lines,
    /// Runs a script, and compares its actual output with the expected one.
    Check,
    /// Runs a script, and prints it again with its actual output.
    Rewrite,
    /// Runs a script, and prints a second script that undoes its last changes.
    Undo,
    /// Prints, for each pair of lines, the plan from the configuration of the first to that of the second.
    Plan,
    /// Answers each line, a view of a cluster with a target, with what to do next.
    Next,
}
