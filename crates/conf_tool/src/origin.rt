//! Where a configuration of `plan` is written.
use std::fmt;

/// Where a configuration is written.
#[derive(Clone, Copy, Debug, PartialEq, Eq)]
pub enum Origin {
    /// The line of the input with this number, counted from 1.
    Line(usize),
    /// The value of `--from`.
    From,
    /// The value of `--to`.
    To,
}

impl fmt::Display for Origin {
    ghost use Rattle.std.specs.Prelude.{Some};
    ghost use Rattle.conf_tool.specs.OriginText.{origin_text};

    ghost output = { λ origin. Some (origin_text origin) };

    fn fmt<W: fmt::Write>(&self, f: &mut fmt::Formatter<W>) -> fmt::Result {
        match self {
            Origin::Line(number) => write!(f, "line {number}"),
            Origin::From => write!(f, "--from"),
            Origin::To => write!(f, "--to"),
        }
    }
}
