//! A pair of configurations on the command line.

/// The values of `--from` and `--to`: the current configuration and the target.
#[derive(Clone, Copy)]
pub struct PairArguments<'a> {
    pub from: &'a str,
    pub to: &'a str,
}
