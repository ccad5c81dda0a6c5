//! A writer that does not allocate: it compares what is written with the expected output.
use std::io;
use std::io::Write;

/// Accepts every write, and knows whether the bytes so far are a prefix of the expected output.
#[derive(Drop)]
pub(crate) struct Matching {
    rest: &'static [u8],
    is_prefix: bool,
}

impl Matching {
    pub(crate) fn with(expected: &'static [u8]) -> Matching {
        Matching {
            rest: expected,
            is_prefix: true,
        }
    }

    /// Whether what was written is a prefix of the expected output.
    pub(crate) fn is_prefix(&self) -> bool {
        self.is_prefix
    }

    /// Whether what was written is the expected output.
    pub(crate) fn is_whole(&self) -> bool {
        self.is_prefix & self.rest.is_empty()
    }
}

impl Write for Matching {
    fn write(&mut self, bytes: &[u8]) -> io::Result<usize> {
        match self.rest.strip_prefix(bytes) {
            Some(rest) => self.rest = rest,
            None => self.is_prefix = false,
        }
        Ok(bytes.len())
    }

    fn flush(&mut self) -> io::Result<()> {
        Ok(())
    }
}
