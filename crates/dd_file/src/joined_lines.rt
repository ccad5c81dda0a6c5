//! Continued directive lines as one text:
//!
//! ```text
//! simple a=1 \      ->    simple a=1  b=2
//!     b=2
//! ```
ghost use Rattle.std.specs.Prelude.{◌≡◌, IfOk};
ghost use Rattle.dd_file.specs.Script.{joined};

use crate::raw_lines::RawLines;
use ascii_text::lines::strip_last;
use ascii_text::white_space::trimmed;
use std::alloc::{AllocError, Global};

/// The directive lines as one text: each is trimmed, and the backslash at the end of a continued one is replaced by a
/// space (datadriven).
pub(crate) fn joined(alloc: Global, lines: &RawLines) -> Result<Vec<u8>, AllocError>
    ensures { IfOk result (λ text. text.items ≡ joined lines.now) }
{
    let mut text = Vec::new(alloc);
    let count = lines.count();
    for i in 0..count {
        let Some(line) = lines.get(i) else {
            unreachable!()
        };
        if i + 1 < count {
            text.extend_from_slice(strip_last(trimmed(line), b'\\'))?;
            text.push(b' ')?;
        } else {
            text.extend_from_slice(trimmed(line))?;
        }
    }
    Ok(text)
}
