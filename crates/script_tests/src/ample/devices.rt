//! Readers and writers that read and write little at once, and that fail where a test asks for it. The error is
//! `Interrupted`, after which other programs try again.
use dd_file::device::{FromRead, ToWrite};
use std::alloc::Global;
use std::io;
use std::io::{ErrorKind, Read, Write};

/// A reader that gives one byte per call, and fails once, after a number of bytes. It counts its calls.
#[derive(Drop)]
pub(crate) struct Trickle {
    pub(crate) calls: usize,
    bytes: &'static [u8],
    until_fault: usize,
}

impl Read for Trickle {
    fn read(&mut self, buffer: &mut [u8]) -> io::Result<usize> {
        self.calls = self.calls.saturating_add(1);
        if self.until_fault == 0 {
            self.until_fault = usize::MAX;
            return Err(ErrorKind::Interrupted.into());
        }
        self.until_fault = self.until_fault.saturating_sub(1);
        if self.bytes.is_empty() || buffer.is_empty() {
            return Ok(0);
        }
        buffer[0] = self.bytes[0];
        self.bytes = &self.bytes[1..];
        Ok(1)
    }
}

/// A reader that gives one byte per call, and fails after this many.
pub(crate) fn byte_by_byte(bytes: &'static [u8], until_fault: usize) -> FromRead<Trickle> {
    FromRead::new(Trickle {
        calls: 0,
        bytes,
        until_fault,
    })
}

/// How a writer stops.
#[derive(Clone, Copy)]
pub(crate) enum Stop {
    Fault,
    AcceptsNone,
}

/// A writer that accepts a limited number of bytes per call, and stops once, when it is full. It counts its calls, and
/// passes its bytes on when it is flushed, as a buffered writer does.
#[derive(Drop)]
pub(crate) struct LimitedWriter {
    pub(crate) written: Vec<u8>,
    /// How many of these bytes it passed on.
    pub(crate) flushed: usize,
    /// How many times it was called to write.
    pub(crate) calls: usize,
    /// How many times it was called to write or flush after it had stopped.
    pub(crate) later_calls: usize,
    has_stopped: bool,
    at_once: usize,
    room: usize,
    stop: Stop,
}

impl LimitedWriter {
    fn count_later_call(&mut self) {
        self.later_calls = self
            .later_calls
            .saturating_add(usize::from(self.has_stopped));
    }
}

impl Write for LimitedWriter {
    fn write(&mut self, bytes: &[u8]) -> io::Result<usize> {
        self.calls = self.calls.saturating_add(1);
        self.count_later_call();
        if self.room == 0 {
            self.room = usize::MAX;
            self.has_stopped = true;
            return match self.stop {
                Stop::Fault => Err(ErrorKind::Interrupted.into()),
                Stop::AcceptsNone => Ok(0),
            };
        }
        let count = bytes.len().min(self.at_once).min(self.room);
        self.written.extend_from_slice(&bytes[..count])?;
        self.room = self.room.saturating_sub(count);
        Ok(count)
    }

    fn flush(&mut self) -> io::Result<()> {
        self.count_later_call();
        self.flushed = self.written.len();
        Ok(())
    }
}

/// A writer that accepts at most this many bytes per call, and stops once, when it has this many.
pub(crate) fn limited(
    alloc: Global,
    at_once: usize,
    room: usize,
    stop: Stop,
) -> ToWrite<LimitedWriter> {
    ToWrite::new(LimitedWriter {
        written: Vec::new(alloc),
        flushed: 0,
        calls: 0,
        later_calls: 0,
        has_stopped: false,
        at_once,
        room,
        stop,
    })
}
