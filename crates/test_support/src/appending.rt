//! Texts to which a call appends.
ghost use Rattle.std.specs.Prelude.{◌≡◌, ◌++◌, codes, true};

use crate::twice;
use std::alloc::Global;

// The text before a call appends to it.
const PREFIX: &[u8] = b"front ";

/// A text to which calls append, or an empty one if memory ran out twice.
pub fn begun(alloc: Global) -> Vec<u8> {
    match twice!(_, PREFIX.to_vec(alloc)) {
        Ok(text) => text,
        Err(_) => Vec::new(alloc),
    }
}

/// Whether nothing has been appended to a text.
pub fn is_begun(text: &[u8]) -> bool
    ensures { result ≡ true → text.now ≡ codes "front " }
{
    text == PREFIX
}

/// Whether this has been appended to a text.
pub fn is_appended(text: &[u8], expected: &str) -> bool
    ensures { result ≡ true → text.now ≡ codes "front " ++ expected.now }
{
    text.strip_prefix(PREFIX) == Some(expected.as_bytes())
}

/// Whether a call appends a text. On `NoMemory` it has to append nothing, and the text when it is repeated. A macro for
/// the reason that `twice` is one.
#[macro_export]
macro_rules! appends {
    ($alloc:expr, $expected:expr, |$text:ident| $append:expr $(,)?) => {{
        let mut buffer = $crate::appending::begun($alloc);
        let $text = &mut buffer;
        let mut answer = $append;
        let mut is_unchanged = true;
        if answer.is_err() {
            is_unchanged = $crate::appending::is_begun($text.as_slice());
            answer = $append;
        }
        is_unchanged & answer.is_ok() & $crate::appending::is_appended($text.as_slice(), $expected)
    }};
}
