//! Lines that are stored as one text, together with the positions of their newlines (own). The lines of an item are
//! written as this text.
//!
//! ```text
//! lines    "v1"  ""  "----"
//! text     v1\n  \n  ----\n
//! ends     2     3   8
//! ```
ghost use Rattle.std.specs.Prelude.{◌≡◌, ◌≤◌, ◌<◌, ◌+◌, ◌^◌, [], ◌∷◌, ◌++◌, length, take, drop, option_map, slice_get, slice_index_or, IfOk, OnOk, OnErr};
ghost use Rattle.ascii_text.specs.Lines.{text_of};

use crate::room::{append, make_room};
use std::alloc::{AllocError, Global};
use std::marker::Model;

/// Lines without their newlines, in the order in which they were added.
#[derive(Drop)]
pub(crate) struct RawLines {
    /// The lines, each with a newline.
    text: Vec<u8>,
    /// The positions of those newlines.
    ends: Vec<usize>,
}

impl Model for RawLines {
    ghost use Rattle.std.specs.Prelude.{List, ℕ};
    ghost use Rattle.dd_file.specs.LineEnds.{lines_at, FillText};

    ghost Value = { List (List ℕ) };

    ghost view = { λ a. lines_at a.text.items 0 a.ends.items };

    ghost invariant = { λ a. FillText a.text.items a.ends.items };
}

impl RawLines {
    pub(crate) fn new(alloc: Global) -> RawLines
        ensures { result ≡ [] }
    {
        RawLines {
            text: Vec::new(alloc),
            ends: Vec::new(alloc),
        }
    }

    /// Drops all lines, and keeps the memory.
    pub(crate) fn clear(&mut self)
        ensures { self.new ≡ [] }
    {
        self.text.clear();
        self.ends.clear();
    }

    pub(crate) fn of_line(alloc: Global, line: Vec<u8>) -> Result<RawLines, AllocError>
        ensures { IfOk result (λ lines. lines ≡ line.items ∷ []) }
    {
        let mut text = line;
        let mut ends = Vec::new(alloc);
        ends.push(text.len())?;
        text.push(b'\n')?;
        Ok(RawLines { text, ends })
    }

    /// Appends a line. On an error nothing changes.
    pub(crate) fn push(&mut self, line: &[u8]) -> Result<(), AllocError>
        ensures ok { OnOk result (self.new ≡ self.old ++ line.now ∷ []) }
        ensures err { OnErr result (self.new ≡ self.old) }
    {
        make_room(&mut self.text, line.len() + 1)?;
        let end = self.text.len() + line.len();
        self.ends.push(end)?;
        append(&mut self.text, line);
        append(&mut self.text, b"\n");
        Ok(())
    }

    pub(crate) fn count(&self) -> usize
        ensures { result ≡ length self.now }
    {
        self.ends.len()
    }

    /// The line at an index, counted from 0; `None` after the last.
    pub(crate) fn get(&self, i: usize) -> Option<&[u8]>
        ensures { option_map (λ line. line.now) result ≡ slice_get self.now i }
    {
        if i >= self.count() {
            return None;
        }
        let len = self.end(i) - self.start(i);
        Some(self.text_after(i).split_at(len).0)
    }

    /// All lines as one text, each with a newline.
    pub(crate) fn text(&self) -> &[u8]
        ensures { result.now ≡ text_of self.now }
    {
        self.text.as_slice()
    }

    /// The lines after the first `count`, each with a newline.
    pub(crate) fn text_after(&self, count: usize) -> &[u8]
        requires { count ≤ length self.now }
        ensures { result.now ≡ text_of (drop count self.now) }
    {
        self.text().split_at(self.start(count)).1
    }

    /// The position at which the line at an index begins, or the end of the text for the index after the last.
    fn start(&self, i: usize) -> usize
        requires { i ≤ length self.now }
        ensures position { result ≡ length (text_of (take i self.now)) }
        ensures within { result ≤ length (text_of self.now) }
    {
        if i == 0 {
            return 0;
        }
        self.end(i - 1) + 1
    }

    /// The position of the newline of the line at an index.
    fn end(&self, i: usize) -> usize
        requires { i < length self.now }
        ensures position { result ≡ length (text_of (take i self.now)) + length
            (slice_index_or self.now i []) }
        ensures within { result < length (text_of self.now) }
        ensures small { result < 2 ^ 63 }
    {
        let ends = self.ends.as_slice();
        ends[i]
    }
}
