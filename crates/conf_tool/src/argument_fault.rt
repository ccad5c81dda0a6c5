//! Why the arguments do not start a run.
ghost use Rattle.std.specs.Prelude.{◌≡◌};
ghost use Rattle.conf_tool.specs.declared.argument_fault.ArgumentFault.TheVariants as fault;

use clap::Error as ClapError;
use plan_input::ShortToken;
use quorum_sets::NoMemory;
use std::alloc::AllocError;
use thiserror::Error;

/// Why the arguments do not start a run.
#[derive(Debug, Drop, Error)]
pub enum ArgumentFault<'a> {
    /// From `clap`: help, the version, a usage error, or out of memory.
    #[error("{0}")]
    Clap(ClapError),
    /// The value of `--down` is not a list of ids.
    #[error("--down expects ids from 1 with commas between them, as in 4,6")]
    BadIds,
    /// The first part of the value of `--down` that is not an id is this hexadecimal number.
    #[error("--down expects ids from 1 with commas between them, as in 4,6; ids are decimal: printf '%u\\n' 0x{0}")]
    HexadecimalId(ShortToken),
    /// `--from` is given without `--to`.
    #[error("--from needs --to")]
    FromAlone,
    /// `--to` is given without `--from`.
    #[error("--to needs --from")]
    ToAlone,
    /// This FILE is given beside `--from` and `--to`.
    #[error("FILE {0} beside --from and --to")]
    FileBesidePair(&'a str),
    /// This FILE is given beside `--from` and `--to`. It is an id, and so are those of `--down`.
    #[error("FILE {0} beside --from and --to; ids are separated by commas: --down {1},{0}")]
    IdBesidePair(&'a str, &'a str),
    /// The value of `--from` is empty.
    #[error("--from is empty")]
    EmptyFrom,
    /// Memory ran out.
    #[error("out of memory")]
    NoMemory,
}

impl From<ClapError> for ArgumentFault<'_> {
    ghost from_gives = { λ error converted. converted ≡ fault.Clap error };

    fn from(error: ClapError) -> Self {
        ArgumentFault::Clap(error)
    }
}

impl From<AllocError> for ArgumentFault<'_> {
    ghost from_gives = { λ _ converted. converted ≡ fault.NoMemory };

    fn from(_error: AllocError) -> Self {
        ArgumentFault::NoMemory
    }
}

impl From<NoMemory> for ArgumentFault<'_> {
    ghost from_gives = { λ _ converted. converted ≡ fault.NoMemory };

    fn from(_error: NoMemory) -> Self {
        ArgumentFault::NoMemory
    }
}
