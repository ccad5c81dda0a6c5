//! The command of a directive with its arguments.
//!
//! ```text
//! enter-joint autoleave=true      the command enter-joint, and the argument autoleave with one value
//! subtest one                     not a command: datadriven groups tests with it, which is not supported here
//! ```
ghost use Rattle.std.specs.Prelude.{◌≡◌, IfOk, option_map};
ghost use Rattle.dd_file.specs.DirectiveLine.{arguments_of, command_of, no_command};

use crate::arguments::{argument_at, ends_token, key_len};
use crate::item::Argument;
use ascii_text::white_space::without_leading_space;
use smallvec::SmallVec;
use std::alloc::{AllocError, Global};
use std::marker::Model;

/// A command and its arguments: what a directive line parses to.
#[derive(Drop)]
pub(crate) struct Command {
    pub(crate) name: SmallVec<u8, 16>,
    pub(crate) arguments: Vec<Argument>,
}

impl Model for Command {
    ghost use Rattle.std.specs.Prelude.{◌≡◌, true};
    ghost use Rattle.dd_file.specs.DirectiveLine.{CommandText, has_keys};

    ghost Value = { CommandText };

    ghost view = { λ a. record { name = a.name.items; arguments = a.arguments.items } };

    ghost invariant = { λ a. has_keys a.arguments.items ≡ true };
}

impl Command {
    /// An empty name without arguments.
    pub(crate) fn none(alloc: Global) -> Command
        ensures { result ≡ no_command }
    {
        Command {
            name: SmallVec::new(alloc),
            arguments: Vec::new(alloc),
        }
    }
}

/// Parses a text as arguments. `None` if one of its tokens is not an argument, so that a mistake is never skipped.
fn parse_arguments(alloc: Global, text: &[u8]) -> Result<Option<Vec<Argument>>, AllocError>
    ensures { IfOk result (λ read. option_map (λ arguments. arguments.items) read
        ≡ arguments_of text.now) }
{
    let mut arguments = Vec::new(alloc);
    let mut rest = text;
    'parse: loop {
        let begun = without_leading_space(rest);
        if begun.is_empty() {
            return Ok(Some(arguments));
        }
        let Some(found) = argument_at(begun) else {
            return Ok(None);
        };
        arguments.push(Argument::new(alloc, found.key, found.values)?)?;
        rest = found.rest;
    }
}

/// Parses a directive line. `None` if it has no command, or one of the tokens after it is not an argument. The name of a
/// command is a key other than `subtest` that is a whole token.
pub(crate) fn parse_command(alloc: Global, text: &[u8]) -> Result<Option<Command>, AllocError>
    ensures { IfOk result (λ read. read ≡ command_of text.now) }
{
    let begun = without_leading_space(text);
    let (name, rest) = begun.split_at(key_len(begun));
    if name.is_empty() || !ends_token(rest) || name == b"subtest".as_slice() {
        return Ok(None);
    }
    match parse_arguments(alloc, rest)? {
        Some(arguments) => Ok(Some(Command {
            name: SmallVec::from_slice(alloc, name)?,
            arguments,
        })),
        None => Ok(None),
    }
}
