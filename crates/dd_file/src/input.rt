//! An input while it is read: its buffered bytes, and the position of the first of them.
//!
//! ```text
//! buffer   returned already | buffered
//!          0                start
//! ```
ghost use Rattle.std.specs.Prelude.{◌≡◌, ◌≤◌, ◌<◌, ◌+◌, ◌||◌, [], true, false, IfOk, IfErr, OnErr, length};
ghost use Rattle.dd_file.specs.Position.{longest_input};
ghost use Rattle.dd_file.specs.Buffered.{FilledBy, IsInterruption, ended, passed, within_limit};
ghost use Rattle.dd_file.specs.ReaderState.{fresh};
ghost use Rattle.dd_file.specs.Answer.{is_read_fault};
ghost use Rattle.dd_file.specs.Device.{LosesPrefix};

use crate::device::Source;
use crate::fault::FileFault;
use std::alloc::{AllocError, Global};
use std::marker::Model;

/// The greatest length of an input in bytes: 2^30 - 1 (own).
const LONGEST_INPUT: usize = 0x3fff_ffff;

/// The greatest number of bytes that one read may return.
const LOOKAHEAD: usize = 4096;

/// An input while it is read.
#[derive(Drop)]
pub(crate) struct Input {
    /// It grows while an item is read.
    buffer: Vec<u8>,
    start: usize,
    /// What one read returns.
    block: Vec<u8>,
    is_ended: bool,
    lines: usize,
    bytes: usize,
    fault: Option<FileFault>,
}

impl Model for Input {
    ghost use Rattle.std.specs.Prelude.{◌≡◌, ◌≤◌, drop, vec_len};
    ghost use Rattle.dd_file.specs.ReaderState.{ReaderState, IsWithin};

    ghost Value = { ReaderState };

    ghost view = { λ a. record {
      buffered = drop a.start a.buffer.items;
      is_ended = a.is_ended;
      position = record { lines = a.lines; bytes = a.bytes };
      fault = a.fault;
    } };

    ghost invariant = { λ a. IsWithin (drop a.start a.buffer.items) a.is_ended a.lines a.bytes
        × (a.start ≤ vec_len a.buffer) × (vec_len a.block ≡ 4096) };
}

impl Input {
    pub(crate) fn new(alloc: Global) -> Result<Input, AllocError>
        ensures { IfOk result (λ input. input ≡ fresh) }
    {
        Ok(Input {
            buffer: Vec::new(alloc),
            start: 0,
            block: vec![in alloc; 0; LOOKAHEAD]?,
            is_ended: false,
            lines: 0,
            bytes: 0,
            fault: None,
        })
    }

    /// The error that was returned, if any.
    pub(crate) fn fault(&self) -> Option<FileFault>
        ensures { result ≡ self.now.fault }
    {
        let _ = &self.buffer;
        self.fault
    }

    /// Notes an error, or none.
    pub(crate) fn set_fault(&mut self, fault: Option<FileFault>)
        ensures { self.new ≡ record self.old { fault = fault } }
    {
        self.fault = fault;
    }

    /// The bytes that were read and not yet returned.
    fn buffered(&self) -> &[u8]
        ensures { result.now ≡ self.now.buffered }
    {
        self.buffer.as_slice().split_at(self.start).1
    }

    /// The buffered bytes within the limit.
    pub(crate) fn within_limit(&self) -> &[u8]
        ensures { result.now ≡ within_limit self.now }
    {
        let buffered = self.buffered();
        let count = buffered.len().min(LONGEST_INPUT - self.bytes);
        buffered.split_at(count).0
    }

    /// Whether the buffered bytes exceed the limit.
    pub(crate) fn is_beyond_limit(&self) -> bool
        ensures beyond { result ≡ true → longest_input < self.now.position.bytes + length
            self.now.buffered }
        ensures within { result ≡ false → self.now.position.bytes + length self.now.buffered ≤
            longest_input }
    {
        self.buffered().len() > LONGEST_INPUT - self.bytes
    }

    /// Reads once, and appends the bytes to the buffered ones. Returns whether there were any; if not, the input has
    /// ended.
    pub(crate) fn fill<R: Source>(&mut self, reader: &mut R) -> Result<bool, FileFault>
        requires unended { self.old.is_ended ≡ false }
        ensures same { self.new ≡ record self.old { buffered = self.new.buffered } }
        ensures filled { IfOk result (FilledBy self.old.buffered self.new.buffered
            (R.remaining reader.old)
            (R.remaining reader.new)) }
        ensures interrupted { IfErr result IsInterruption }
        ensures lost { OnErr result (LosesPrefix (R.remaining reader.old)
            (R.remaining reader.new)) }
        ensures failed { R.has_failed reader.new
            ≡ (R.has_failed reader.old || is_read_fault result) }
    {
        self.drop_returned();
        let count = reader
            .read(self.block.as_mut_slice())
            .map_err(|_| FileFault::Read)?;
        let block = self.block.as_slice().split_at(count).0;
        self.buffer
            .extend_from_slice(block)
            .map_err(|_| FileFault::NoMemory)?;
        Ok(count > 0)
    }

    /// Drops the bytes that were returned, and moves what is buffered to the start of the buffer.
    fn drop_returned(&mut self)
        ensures { self.new ≡ self.old }
    {
        if self.start > 0 {
            let count = self.buffer.len() - self.start;
            self.buffer.as_mut_slice().copy_within(self.start.., 0);
            self.buffer.truncate(count);
            self.start = 0;
        }
    }

    /// Counts these lines and bytes as returned, and drops the bytes from the buffer.
    pub(crate) fn pass(&mut self, lines: usize, bytes: usize)
        requires buffered { bytes ≤ length self.old.buffered }
        requires some { lines ≤ bytes }
        requires limit { self.old.position.bytes + bytes ≤ longest_input }
        ensures passed { self.new ≡ passed self.old lines bytes }
        ensures counted { self.new.position.lines ≤ longest_input }
    {
        self.start += bytes;
        self.lines += lines;
        self.bytes += bytes;
    }

    /// Counts all that is buffered, which is this many lines, as returned. The input has ended.
    pub(crate) fn end(&mut self, lines: usize)
        requires some { lines ≤ length self.old.buffered }
        requires limit { self.old.position.bytes + length self.old.buffered ≤ longest_input }
        ensures ended { self.new ≡ ended self.old lines }
        ensures counted { self.new.position.lines ≤ longest_input }
    {
        self.pass(lines, self.buffered().len());
        self.is_ended = true;
    }

    /// Whether the end of the input was reached and every line was returned.
    pub(crate) fn is_over(&self) -> bool
        ensures ended { result ≡ self.now.is_ended }
        ensures empty { self.now.is_ended ≡ true → self.now.buffered ≡ [] }
        ensures counted { self.now.position.lines ≤ longest_input }
        ensures limit { self.now.position.bytes ≤ longest_input }
    {
        let _ = &self.buffer;
        self.is_ended
    }

    /// How many lines were returned, which is also the number of the last one.
    pub(crate) fn count(&self) -> usize
        ensures count { result ≡ self.now.position.lines }
        ensures counted { self.now.position.lines ≤ self.now.position.bytes }
        ensures limit { self.now.position.bytes ≤ longest_input }
    {
        let _ = &self.buffer;
        self.lines
    }
}
