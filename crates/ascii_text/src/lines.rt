//! The lines of a text. A full line is a line with its newline; the last line of a text may have none. `"a\r\nb"` has
//! the full lines `"a\r\n"` and `"b"`, and the lines `"a"` and `"b"`.
//!
//! What names no source here is own.
ghost use Rattle.std.specs.Prelude.{◌≡◌, ◌≤◌, ◌<◌, [], ◌∷◌, length, IfSome, MatchOption};
ghost use Rattle.ascii_text.specs.Lines.{first_len, full_lines, without_last, line_of, ends_in_newline};

use crate::position::find_far_byte;

/// The length of the first full line in bytes, 0 if the text is empty.
pub fn first_line_len(bytes: &[u8]) -> usize
    ensures count { result ≡ first_len bytes.now }
    ensures bound { result ≤ length bytes.now }
{
    (find_far_byte(bytes, b'\n') + 1).min(bytes.len())
}

/// The first full line of a text, and the text after it. An empty text has none.
pub fn next_full_line(text: &[u8]) -> Option<(&[u8], &[u8])>
    ensures full_lines { MatchOption result (full_lines text.now ≡ [])
        (λ parts. full_lines text.now ≡ parts.0.now ∷ full_lines parts.1.now) }
    ensures shorter { IfSome result (λ parts. length parts.1.now < length text.now) }
{
    if text.is_empty() {
        return None;
    }
    Some(text.split_at(first_line_len(text)))
}

/// Drops the last byte if it is `end`.
pub fn strip_last(bytes: &[u8], end: u8) -> &[u8]
    ensures { result.now ≡ without_last end bytes.now }
{
    match bytes.split_last() {
        Some((last, prefix)) => { if *last == end { prefix } else { bytes } }
        None => bytes,
    }
}

/// The line of a full line: without its newline, and then without one carriage return, so that a file with Windows line
/// endings reads like any other (Go's `bufio.ScanLines`).
pub fn line_of(full_line: &[u8]) -> &[u8]
    ensures { result.now ≡ line_of full_line.now }
{
    strip_last(strip_last(full_line, b'\n'), b'\r')
}

/// Whether the bytes end in a newline. A line that is read in parts is complete after the first part that does.
pub fn ends_in_newline(bytes: &[u8]) -> bool
    ensures { result ≡ ends_in_newline bytes.now }
{
    match bytes.split_last() {
        Some((last, _)) => *last == b'\n',
        None => false,
    }
}
