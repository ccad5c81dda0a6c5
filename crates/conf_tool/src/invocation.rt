//! What the arguments ask for.
use crate::mode::Mode;
use crate::options::Options;
use crate::pair_arguments::PairArguments;

/// A mode with its options, and what it reads: the pair on the command line if there is one, or else the file, which is
/// standard input if it is left out or `-`.
#[derive(Drop)]
pub struct Invocation<'a> {
    pub mode: Mode,
    pub options: Options,
    pub pair: Option<PairArguments<'a>>,
    pub file: Option<&'a str>,
}
