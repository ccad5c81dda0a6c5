//! The kinds of lines of a script: comments, continued lines and separators.
//!
//! White space around a line does not change its kind, with one exception: the lines of a double separator after the
//! first are four dashes and nothing else, so that an indented `----` can be part of an output.
ghost use Rattle.std.specs.Prelude.{◌≡◌};
ghost use Rattle.dd_file.specs.Script.{is_comment, is_continued, is_separator, is_dashes};

use ascii_text::white_space::trimmed;

/// Whether the line is a comment between directives: its first byte after white space is `#`.
pub fn is_comment(line: &[u8]) -> bool
    ensures { result ≡ is_comment line.now }
{
    trimmed(line).starts_with(b"#")
}

/// Whether the line ends in a backslash, so that the next one continues it.
pub(crate) fn is_continued(line: &[u8]) -> bool
    ensures { result ≡ is_continued line.now }
{
    trimmed(line).ends_with(b"\\")
}

/// Whether the line is four dashes with any white space around them: the separator of a directive (own; datadriven
/// 1.0.2 takes no white space there).
pub(crate) fn is_separator(line: &[u8]) -> bool
    ensures { result ≡ is_separator line.now }
{
    is_dashes(trimmed(line))
}

/// Whether the line is four dashes and nothing else, as the lines of a double separator after the first have to be.
pub(crate) fn is_dashes(line: &[u8]) -> bool
    ensures { result ≡ is_dashes line.now }
{
    line == b"----".as_slice()
}
