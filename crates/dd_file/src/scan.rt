//! The buffered bytes of a line or an item while they are looked at.
ghost use Rattle.std.specs.Prelude.{◌≡◌, ◌≤◌, ◌<◌, ◌+◌, true, false, length, IfOk, IfSome, OnOk, MatchOption};
ghost use Rattle.dd_file.specs.Buffered.{HasNoNewline, BeginsWithLine};
ghost use Rattle.dd_file.specs.Draft.{DraftOf, DraftOfAll};

use crate::draft::Draft;
use ascii_text::lines::{ends_in_newline, first_line_len, line_of};
use std::alloc::AllocError;

/// How many of the buffered bytes were looked at. A line that is read in parts is searched for its newline once.
#[derive(Clone, Copy)]
pub(crate) struct Scan {
    /// The lines of the item so far.
    pub(crate) lines: usize,
    /// The bytes of these lines.
    pub(crate) bytes: usize,
    /// How many bytes after them have no newline.
    pub(crate) searched: usize,
}

/// The first full line, if it ends in a newline. The first `searched` bytes have none.
pub(crate) fn whole_line_from(bytes: &[u8], searched: usize) -> Option<&[u8]>
    requires { HasNoNewline searched bytes.now }
    ensures line { MatchOption result (HasNoNewline (length bytes.now) bytes.now)
        (λ line. BeginsWithLine line.now bytes.now) }
    ensures searched { IfSome result (λ line. searched < length line.now) }
{
    let len = searched + first_line_len(bytes.split_at(searched).1);
    let full_line = bytes.split_at(len).0;
    if ends_in_newline(full_line) {
        Some(full_line)
    } else {
        None
    }
}

/// Adds the lines that end in the bytes to the draft, up to the last line of the item. Returns whether the item is
/// complete. If memory runs out, the draft is no longer usable.
pub(crate) fn add_lines<D: Draft>(
    draft: &mut D,
    scan: &mut Scan,
    bytes: &[u8],
) -> Result<bool, AllocError>
    requires so_far { DraftOf D.first_item D.begun D.Fits draft.old scan.old bytes.now }
    requires open_end { (D.begun draft.old).is_done ≡ false }
    ensures lines { OnOk result (DraftOf D.first_item D.begun D.Fits draft.new scan.new bytes.now) }
    ensures done { IfOk result (λ done. done ≡ (D.begun draft.new).is_done) }
    ensures some { IfOk result (λ done. done ≡ true
        → scan.old.bytes + scan.old.searched ≤ scan.new.bytes) }
    ensures none { IfOk result (λ done. done ≡ false → scan.new.bytes + scan.new.searched
        ≡ length bytes.now) }
{
    'lines: loop {
        let rest = bytes.split_at(scan.bytes).1;
        let Some(full_line) = whole_line_from(rest, scan.searched) else {
            scan.searched = rest.len();
            return Ok(false);
        };
        let done = draft.add(line_of(full_line))?;
        *scan = Scan {
            lines: scan.lines + 1,
            bytes: scan.bytes + full_line.len(),
            searched: 0,
        };
        if done {
            return Ok(true);
        }
    }
}

/// Adds the last line of the input to the draft, if it has no newline, and returns how many lines the item has.
pub(crate) fn add_last_line<D: Draft>(
    draft: &mut D,
    scan: Scan,
    bytes: &[u8],
) -> Result<usize, AllocError>
    requires so_far { DraftOf D.first_item D.begun D.Fits draft.old scan bytes.now }
    requires open_end { (D.begun draft.old).is_done ≡ false }
    requires searched { scan.bytes + scan.searched ≡ length bytes.now }
    ensures all { IfOk result (λ count. DraftOfAll D.first_item D.begun D.Fits draft.new count
        bytes.now) }
    ensures few { IfOk result (λ count. count ≤ length bytes.now) }
{
    if scan.bytes == bytes.len() {
        return Ok(scan.lines);
    }
    let last = bytes.split_at(scan.bytes).1;
    draft.add(line_of(last))?;
    Ok(scan.lines + 1)
}
