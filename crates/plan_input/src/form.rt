//! In which form a configuration is written.
ghost use Rattle.std.specs.Prelude.{◌≡◌};
ghost use Rattle.plan_input.specs.Form.{form_of};

use ascii_text::white_space::trimmed;

/// The form of a text.
#[derive(Clone, Copy, Debug, PartialEq, Eq)]
pub(crate) enum Form {
    /// JSON, which begins with `{`.
    Json,
    /// A ConfState line, which begins with `Voters:`.
    ConfStateLine,
    /// A printed configuration, which begins with `voters`.
    Printed,
    /// None of these, as a list of changes.
    Other,
}

/// The form of a text, by its first bytes after white space.
pub(crate) fn form_of(text: &[u8]) -> Form
    ensures { result ≡ form_of text.now }
{
    let text = trimmed(text);
    if text.starts_with(b"{") {
        Form::Json
    } else if text.starts_with(b"Voters:") {
        Form::ConfStateLine
    } else if text.starts_with(b"voters") {
        Form::Printed
    } else {
        Form::Other
    }
}
