//! The first position of a byte in a text, and the text before and after it.
ghost use Rattle.std.specs.Prelude.{◌≡◌, ◌==◌, ◌≤◌, ◌<◌, [], ◌∷◌, length, take, drop};
ghost use Rattle.std.specs.List.{position_or_len, slice_split};

use memchr::memchr;

/// The position of the first `byte` in the text, counted from 0, or the length of the text if there is none. In `a,b`
/// it is 1 for `,` and 3 for `;`.
pub fn position_of(text: &[u8], byte: u8) -> usize
    ensures position { result ≡ position_or_len (λ b. b == byte) text.now }
    ensures within { result ≤ length text.now }
{
    for (position, other) in text.iter().enumerate() {
        if *other == byte {
            return position;
        }
    }
    text.len()
}

/// Like [`position_of`], for a byte that is usually far away, such as the newline at the end of a line.
pub fn find_far_byte(text: &[u8], byte: u8) -> usize
    ensures position { result ≡ position_or_len (λ b. b == byte) text.now }
    ensures within { result ≤ length text.now }
{
    match memchr(byte, text) {
        Some(position) => position,
        None => text.len(),
    }
}

/// The text before the first `byte`, and the text from that byte on, which is empty if there is none. `a,b` gives `a`
/// and `,b` for `,`.
pub fn split_at_first(text: &[u8], byte: u8) -> (&[u8], &[u8])
    ensures before { result.0.now ≡ take (position_or_len (λ b. b == byte) text.now) text.now }
    ensures from { result.1.now ≡ drop (position_or_len (λ b. b == byte) text.now) text.now }
    ensures last { length result.1.now ≡ 0
        → slice_split (λ b. b == byte) text.now ≡ result.0.now ∷ [] }
    ensures more { 0 < length result.1.now
        → slice_split (λ b. b == byte) text.now
        ≡ result.0.now ∷ slice_split (λ b. b == byte) (drop 1 result.1.now) }
    ensures within { length result.1.now ≤ length text.now }
{
    text.split_at(position_of(text, byte))
}
