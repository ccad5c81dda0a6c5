//! Writing all of some bytes to a sink.
//!
//! One call of a sink may write only a prefix, so the rest is written by further calls. After a call that fails or
//! takes no byte there are no further calls, so no byte is written twice.
ghost use Rattle.std.specs.Prelude.{◌≡◌, ◌≤◌, ◌||◌, nat_lt, [], IsOk, OnOk, OnErr, true, length, take};
ghost use Rattle.std.specs.Io.KnownBytes.{Appends};
ghost use Rattle.dd_file.specs.Device.{AppendsPart};

use crate::device::Sink;
use crate::fault::WriteFault;

/// Writes until all bytes are written or a write fails, and returns how many were written.
#[inline(always)]
pub(crate) fn write_prefix<W: Sink>(writer: &mut W, bytes: &[u8]) -> usize
    ensures bound { result ≤ length bytes.now }
    ensures bytes { Appends (W.contents writer.old) (W.contents writer.new)
        (take result bytes.now) }
    ensures failed { W.has_failed writer.new
        ≡ (W.has_failed writer.old || nat_lt result (length bytes.now)) }
    ensures nothing { bytes.now ≡ [] → writer.new ≡ writer.old }
{
    let mut written = 0;
    while written < bytes.len() {
        match writer.write(&bytes[written..]) {
            Ok(count) => {
                if count == 0 {
                    return written;
                }
                written += count;
            }
            Err(_) => return written,
        }
    }
    written
}

/// Writes all of the bytes. It fails if a call of the writer fails or takes no byte; then a prefix of the bytes is
/// written. If there are no bytes, the writer is not called (own).
#[inline(always)]
pub fn write_all<W: Sink>(writer: &mut W, bytes: &[u8]) -> Result<(), WriteFault>
    ensures ok { OnOk result (Appends (W.contents writer.old) (W.contents writer.new) bytes.now) }
    ensures err { OnErr result (AppendsPart (W.contents writer.old) (W.contents writer.new)
        bytes.now) }
    // After an error the writer has failed; without one no write failed in this call.
    ensures failed { OnErr result (W.has_failed writer.new ≡ true) }
    ensures sound { OnOk result (W.has_failed writer.new ≡ W.has_failed writer.old) }
    ensures nothing { bytes.now ≡ [] → IsOk result × (writer.new ≡ writer.old) }
{
    if write_prefix(writer, bytes) < bytes.len() {
        return Err(WriteFault);
    }
    Ok(())
}
