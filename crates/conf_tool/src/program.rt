//! The program as `clap` knows it: each mode is a subcommand.
ghost use Rattle.std.specs.Prelude.{◌≡◌, [], false, map, IfOk};
ghost use Rattle.clap.specs.Words.{app_of, rule_of};
ghost use Rattle.conf_tool.specs.Program.{program, without_modes, mode_command, command_with, option_of, script_options, undo_options, plan_options};

use crate::help::{
    ABOUT, CHECK, DOWN, FROM, HISTORY, LINES, ModeHelp, NEXT, NEXT_FLOOR, OUTPUT, OptionHelp, PLAN,
    PROGRAM, REWRITE, STEPS, STRATEGY, TO, UNDO,
};
use crate::mode::Mode;
use clap::builder::ValueParser;
use clap::{Arg, Command};
use std::alloc::{AllocError, Global};

/// The version that `--version` prints after the program's name.
const VERSION: &str = "0.1.0";

/// The names that options accept as values.
#[derive(Clone, Copy)]
pub(crate) struct OptionNames<'a> {
    pub(crate) floors: &'a [&'a str],
    pub(crate) strategies: &'a [&'a str],
    pub(crate) outputs: &'a [&'a str],
}

/// An option of a mode. Its value is any text if it has no parser.
#[derive(Clone, Copy)]
struct ModeOption<'a> {
    help: OptionHelp,
    parser: Option<ValueParser<'a>>,
}

/// The program with its modes, whose options have these names as values.
pub(crate) fn program<'a>(alloc: Global, names: OptionNames<'a>) -> Result<Command<'a>, AllocError>
    ensures { IfOk result (λ command. app_of command ≡ program names.entry) }
{
    let mut program = without_modes(alloc);
    for mode in [
        Mode::Plan,
        Mode::Next,
        Mode::Lines,
        Mode::Check,
        Mode::Rewrite,
        Mode::Undo,
    ] {
        program = program.subcommand(mode_command(alloc, mode, names)?)?;
    }
    Ok(program)
}

// The program before its modes are added.
fn without_modes<'a>(alloc: Global) -> Command<'a>
    ensures { app_of result ≡ without_modes }
{
    Command::new(alloc, "confscript")
        .about(ABOUT)
        .after_long_help(PROGRAM)
        .version(VERSION)
        .subcommand_required(true)
}

// A mode as a subcommand.
fn mode_command<'a>(
    alloc: Global,
    mode: Mode,
    names: OptionNames<'a>,
) -> Result<Command<'a>, AllocError>
    ensures { IfOk result (λ command. app_of command
        ≡ record { top = mode_command names.entry mode; subs = [] }) }
{
    match mode {
        Mode::Lines => command_with(alloc, LINES, &[]),
        Mode::Check => command_with(alloc, CHECK, &script_options(names)),
        Mode::Rewrite => command_with(alloc, REWRITE, &script_options(names)),
        Mode::Undo => command_with(alloc, UNDO, &undo_options(names)),
        Mode::Plan => command_with(alloc, PLAN, &plan_options(names)),
        Mode::Next => command_with(alloc, NEXT, &[]),
    }
}

// The options of a mode that runs a script.
fn script_options<'a>(names: OptionNames<'a>) -> [ModeOption<'a>; 2]
    ensures { map option_of result ≡ script_options names.entry }
{
    [
        ModeOption {
            help: HISTORY,
            parser: Some(ValueParser::Unsigned(0, 1000)),
        },
        ModeOption {
            help: NEXT_FLOOR,
            parser: Some(ValueParser::Names(names.floors)),
        },
    ]
}

// The options of `undo`.
fn undo_options<'a>(names: OptionNames<'a>) -> [ModeOption<'a>; 3]
    ensures { map option_of result ≡ undo_options names.entry }
{
    let [history, floor] = script_options(names);
    [
        history,
        floor,
        ModeOption {
            help: STEPS,
            parser: Some(ValueParser::Unsigned(1, 1000)),
        },
    ]
}

// The options of `plan`.
fn plan_options<'a>(names: OptionNames<'a>) -> [ModeOption<'a>; 5]
    ensures { map option_of result ≡ plan_options names.entry }
{
    [
        ModeOption {
            help: STRATEGY,
            parser: Some(ValueParser::Names(names.strategies)),
        },
        ModeOption {
            help: OUTPUT,
            parser: Some(ValueParser::Names(names.outputs)),
        },
        ModeOption {
            help: DOWN,
            parser: None,
        },
        ModeOption {
            help: FROM,
            parser: None,
        },
        ModeOption {
            help: TO,
            parser: None,
        },
    ]
}

// A mode, with the file to read and these options.
fn command_with<'a>(
    alloc: Global,
    mode: ModeHelp,
    options: &[ModeOption<'a>],
) -> Result<Command<'a>, AllocError>
    ensures { IfOk result (λ command. app_of command
        ≡ record { top = command_with mode.name.now (map option_of options.now); subs = [] }) }
{
    let file = Arg::new(alloc, "FILE").help(
        "The file to read; standard input if it is left out or -",
    );
    let mut command = Command::new(alloc, mode.name)
        .about(mode.about)
        .after_long_help(mode.after)
        .arg(file)?;
    for option in options {
        command = command.arg(option_argument(alloc, *option))?;
    }
    Ok(command)
}

// An option as an argument of its mode.
fn option_argument<'a>(alloc: Global, option: ModeOption<'a>) -> Arg<'a>
    ensures rule { rule_of result ≡ option_of option.entry }
    ensures local { result.global ≡ false }
{
    let argument = Arg::new(alloc, option.help.name)
        .long(option.help.name)
        .value_name(option.help.value_name)
        .help(option.help.about);
    let argument = match option.parser {
        Some(parser) => argument.value_parser(parser),
        None => argument,
    };
    match option.help.long {
        Some(text) => argument.long_help(text),
        None => argument,
    }
}
