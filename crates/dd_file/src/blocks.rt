//! A buffered writer (own): small writes are gathered into a block, which is then written as a whole.
//!
//! No contract of std's `BufWriter` states what was written when a write fails. Here a failed write is the last one,
//! and what the writer got is a prefix of what was written to the blocks.
ghost use Rattle.std.specs.Prelude.{◌≡◌, ◌≤◌, ◌<◌, ◌||◌, IsErr, is_err, OnOk, IfOk, true, length, vec_len, vec_capacity};
ghost use Rattle.std.specs.Io.{WritesAtMost};
ghost use Rattle.std.specs.Io.KnownBytes.{Appends, Keeps, WriteAppends};
ghost use Rattle.dd_file.specs.Device.{AppendsPart, is_failed_write};

use crate::device::Sink;
use crate::fault::{DeviceFault, WriteFault};
use crate::room::append;
use crate::writing::write_prefix;
use std::alloc::{AllocError, Global};

/// The size of a block in bytes.
const BLOCK_BYTES: usize = 16_384;

/// A sink that buffers what is written until it has a block of 16,384 bytes, and then writes the block. Call `flush` at
/// the end. After an error the writer is not called again.
#[derive(Drop)]
pub struct Blocks<W> {
    writer: W,
    block: Vec<u8>,
    /// How many bytes of the block were written, if a write failed in the middle of it.
    written: usize,
    ghost written_within: { written ≤ vec_len block },
    ghost block_within: { vec_len block ≤ 16384 },
    ghost room: { 16384 ≤ vec_capacity block },
}

impl<W: Sink> Blocks<W> {
    ghost use Rattle.dd_file.specs.Gathered.{buffered_writer, buffered_output, NothingBuffered};

    /// A sink with an empty block, over this writer. If memory runs out, the writer is dropped.
    pub fn new(alloc: Global, writer: W) -> Result<Blocks<W>, AllocError>
    where
        W: Drop,
        ensures writer { IfOk result (λ blocks. buffered_writer blocks ≡ writer) }
        ensures empty { IfOk result (λ blocks. NothingBuffered blocks) }
    {
        let block = Vec::with_capacity(alloc, BLOCK_BYTES)?;
        Ok(Blocks {
            writer,
            block,
            written: 0,
        })
    }

    /// Writes the block to the writer and empties it. The writer itself may still buffer the bytes.
    fn flush_block(&mut self) -> Result<(), DeviceFault>
        ensures bytes { Keeps (⟦<Blocks<W> as Sink>⟧.contents self.old)
            (⟦<Blocks<W> as Sink>⟧.contents self.new) }
        ensures ok { OnOk result (NothingBuffered self.new) }
        ensures part { AppendsPart (W.contents (buffered_writer self.old))
            (W.contents (buffered_writer self.new))
            (buffered_output self.old) }
        ensures room { OnOk result (vec_len self.new.block ≡ 0) }
        ensures again { W.has_failed (buffered_writer self.old) ≡ true → IsErr result
            × (self.new ≡ self.old) }
        ensures nothing { NothingBuffered self.old
            → buffered_writer self.new ≡ buffered_writer self.old }
        ensures failed { W.has_failed (buffered_writer self.new)
            ≡ (W.has_failed (buffered_writer self.old) || is_err result) }
    {
        if self.writer.failed() {
            return Err(DeviceFault);
        }
        let waiting = &self.block[self.written..];
        let total = waiting.len();
        let count = write_prefix(&mut self.writer, waiting);
        if count < total {
            self.written += count;
            return Err(DeviceFault);
        }
        self.written = 0;
        self.block.clear();
        Ok(())
    }

    /// Writes a prefix of bytes that do not fit into the block. A full block is flushed first; after that, bytes that
    /// would fill a block by themselves go to the writer directly.
    #[cold]
    fn write_part(&mut self, bytes: &[u8]) -> Result<usize, DeviceFault>
        requires { 0 < length bytes.now }
        ensures bound { WritesAtMost result bytes.now }
        ensures bytes { WriteAppends (⟦<Blocks<W> as Sink>⟧.contents self.old)
            (⟦<Blocks<W> as Sink>⟧.contents self.new) result bytes.now }
        ensures failed { W.has_failed (buffered_writer self.new)
            ≡ (W.has_failed (buffered_writer self.old) || is_failed_write result bytes.now) }
    {
        if self.block.len() == BLOCK_BYTES {
            self.flush_block()?;
            if bytes.len() >= BLOCK_BYTES {
                return self.writer.write(bytes);
            }
        }
        let count = bytes.len().min(BLOCK_BYTES - self.block.len());
        append(&mut self.block, &bytes[..count]);
        Ok(count)
    }

    /// Writes the buffered bytes to the writer. It fails if the writer fails, or has failed before.
    pub fn flush(&mut self) -> Result<(), WriteFault>
        ensures bytes { Keeps (⟦<Blocks<W> as Sink>⟧.contents self.old)
            (⟦<Blocks<W> as Sink>⟧.contents self.new) }
        ensures ok { OnOk result (NothingBuffered self.new) }
        // The writer got a prefix of the bytes that were buffered.
        ensures part { AppendsPart (W.contents (buffered_writer self.old))
            (W.contents (buffered_writer self.new))
            (buffered_output self.old) }
        // An error is permanent, and the writer is not called again.
        ensures again { W.has_failed (buffered_writer self.old) ≡ true → IsErr result
            × (self.new ≡ self.old) }
        // If nothing is buffered, the writer is as it was.
        ensures nothing { NothingBuffered self.old
            → buffered_writer self.new ≡ buffered_writer self.old }
        // The writer has failed exactly when it had failed before, or an error is returned.
        ensures failed { W.has_failed (buffered_writer self.new)
            ≡ (W.has_failed (buffered_writer self.old) || is_err result) }
    {
        self.flush_block().map_err(|_| WriteFault)
    }

    /// The writer. Bytes that are still buffered are lost: call `flush` first.
    pub fn into_inner(self) -> W
        ensures writer { result ≡ buffered_writer self }
        ensures part { Appends (W.contents result) (⟦<Blocks<W> as Sink>⟧.contents self)
            (buffered_output self) }
    {
        let Blocks {
            writer,
            block: _,
            written: _,
        } = self;
        writer
    }
}

impl<W: Sink> Sink for Blocks<W> {
    ghost use Rattle.dd_file.specs.Gathered.{buffered_writer, gathered_bytes, NothingBuffered};

    ghost contents = { gathered_bytes W.contents };

    ghost IsFlushed = { λ s. NothingBuffered s × W.IsFlushed s.writer };

    ghost has_failed = { λ s. W.has_failed s.writer };

    // Bytes that fit are added to the block, and the writer is not called.
    fn write(&mut self, bytes: &[u8]) -> Result<usize, DeviceFault> {
        if self.writer.failed() {
            return Err(DeviceFault);
        }
        if bytes.len() > BLOCK_BYTES - self.block.len() {
            return self.write_part(bytes);
        }
        append(&mut self.block, bytes);
        Ok(bytes.len())
    }

    // Flushes the block, and then the writer, which may buffer bytes too.
    fn flush_all(&mut self) -> Result<(), DeviceFault> {
        self.flush_block()?;
        self.writer.flush_all()
    }

    fn failed(&self) -> bool {
        self.writer.failed()
    }
}
