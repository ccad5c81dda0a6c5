//! The tokens of a text: the runs of bytes that are not white space. `enter-joint  v4 r1` has three.
ghost use Rattle.std.specs.Prelude.{◌≡◌, ◌<◌, ◌≤◌, ◌↔◌, [], ◌∷◌, ◌++◌, length, IsNone, IfSome};
ghost use Rattle.std.specs.List.{position_or_len};
ghost use Rattle.ascii_text.specs.WhiteSpace.{is_space, without_leading_space};
ghost use Rattle.ascii_text.specs.Tokens.{tokens_in};

use crate::white_space::{is_space, without_leading_space};

// The length of the token that the text begins with.
fn token_len(text: &[u8]) -> usize
    ensures count { result ≡ position_or_len is_space text.now }
    ensures within { result ≤ length text.now }
{
    text.iter().take_while(|byte| !is_space(**byte)).count()
}

/// The first token of a text, and the text after it. A blank text has none. For ` v1 l2` they are `v1` and ` l2`.
pub fn next_token(text: &[u8]) -> Option<(&[u8], &[u8])>
    ensures none { IsNone result ↔ (tokens_in text.now ≡ []) }
    ensures token { IfSome result (λ parts.
        tokens_in text.now ≡ parts.0.now ∷ tokens_in parts.1.now) }
    ensures whole { IfSome result (λ parts.
        without_leading_space text.now ≡ parts.0.now ++ parts.1.now) }
    ensures not_empty { IfSome result (λ parts. 0 < length parts.0.now) }
    ensures shorter { IfSome result (λ parts. length parts.1.now < length text.now) }
{
    let text = without_leading_space(text);
    let (token, rest) = text.split_at(token_len(text));
    if token.is_empty() {
        None
    } else {
        Some((token, rest))
    }
}
