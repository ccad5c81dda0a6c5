//! Writing a result into the caller's buffer: the bytes of a text, or numbers.
ghost use Rattle.std.specs.Prelude.{◌≡◌, length};
ghost use Rattle.confscript_c.specs.Written.{length_answer, written_over};

use crate::answer::Answer;
use crate::status::Status;

/// Writes items to the start of a buffer if they fit. If not, the buffer is unchanged, and the status is `TooSmall`.
/// The number is how many items there are in both cases.
pub(crate) fn write_out<T: Copy>(items: &[T], buffer: &mut [T]) -> Answer
    ensures answer { result ≡ length_answer (length items.now) (length buffer.old) }
    ensures written { buffer.new ≡ written_over items.now buffer.old }
{
    let len = items.len();
    if len > buffer.len() {
        return Answer::new(Status::TooSmall, len as u64);
    }
    buffer[..len].copy_from_slice(items);
    Answer::done(len as u64)
}
