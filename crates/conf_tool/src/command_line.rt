//! What the arguments of the command line ask for.
ghost use Rattle.std.specs.Prelude.{◌≡◌, ◌≤◌, [], Option, Some, map, codes, option_map, MatchResult, IfOk, IfErr};
ghost use Rattle.clap.specs.Words.{Text, fault_of, first_of, found_of, rows_of, subcommand_of, subcommand_rows_of};
ghost use Rattle.conf_tool.specs.Program.{program as the_program, OfProgram};
ghost use Rattle.conf_tool.specs.CommandLine.{mode_named, floor_named, strategy_named, output_named, ids_down, pair_of, texts_of, IsOptionValue, IsInvocation, IsValueFault, IsValueFaultOf, IsRefusal};
ghost use Rattle.conf_tool.specs.Ranges.{IsInRange};

use crate::argument_fault::ArgumentFault;
use crate::id_list::{hexadecimal_listed, ids_listed, read_id};
use crate::invocation::Invocation;
use crate::mode::Mode;
use crate::options::Options;
use crate::pair_arguments::PairArguments;
use crate::plan_options::{PlanOptions, PlanOutput};
use crate::program::{OptionNames, program};
use clap::ArgMatches;
use conf_change::Floor;
use conf_plan::Strategy;
use conf_session::SessionIds;
use plan_input::ShortToken;
use plan_output::Output;
use quorum_sets::MemberSet;
use std::alloc::Global;
use std::convert::AsStr;

/// What the arguments ask for. The first argument is the program's name.
pub fn command_line<'a, S: AsStr>(
    alloc: Global,
    arguments: &'a [S],
) -> Result<Invocation<'a>, ArgumentFault<'a>>
    // The arguments are refused exactly if `clap` refuses them, if `--down` is not a list of ids, or if `--from` and
    // `--to` are not a pair. The error is what is wrong.
    ensures refused { OfProgram (λ the_program. MatchResult result
        (λ _. fault_of the_program (map S.text arguments.entry.now) ≡ [])
        (IsRefusal the_program (map S.text arguments.entry.now))) }

    // The invocation has what `clap` reads in the arguments.
    ensures asked { OfProgram
        (λ the_program. IfOk result
        (IsInvocation (subcommand_of the_program (map S.text arguments.entry.now)))) }
{
    let names = OptionNames {
        floors: &["0", "1"],
        strategies: &["shortest", "learners-first", "one-at-a-time"],
        outputs: &["steps", "script", "table", "json"],
    };
    read_arguments(alloc, arguments, names)
}

// What the arguments ask for, where the options have these names as values.
fn read_arguments<'a, S: AsStr>(
    alloc: Global,
    arguments: &'a [S],
    names: OptionNames<'a>,
) -> Result<Invocation<'a>, ArgumentFault<'a>>
    ensures refused { MatchResult result (λ _. fault_of (the_program names.entry)
        (map S.text arguments.entry.now) ≡ [])
        (IsRefusal (the_program names.entry) (map S.text arguments.entry.now)) }
    ensures asked { IfOk result (IsInvocation (subcommand_of (the_program names.entry)
        (map S.text arguments.entry.now))) }
{
    let matches = program(alloc, names)?.try_get_matches_from(arguments)?;
    invocation_of(alloc, &matches)
}

// What the parsed arguments ask for.
fn invocation_of<'a>(
    alloc: Global,
    matches: &ArgMatches<'a>,
) -> Result<Invocation<'a>, ArgumentFault<'a>>
    ensures asked { IfOk result (IsInvocation (subcommand_rows_of matches.now)) }
    ensures fault { IfErr result (IsValueFault (subcommand_rows_of matches.now)) }
{
    match matches.subcommand() {
        Some((name, matches)) => {
            let file = text_of(matches, "FILE");
            Ok(Invocation {
                mode: mode_named(name),
                options: options_of(alloc, matches)?,
                pair: pair_of(
                    file,
                    text_of(matches, "down"),
                    text_of(matches, "from"),
                    text_of(matches, "to"),
                )?,
                file,
            })
        }
        None => Ok(Invocation {
            mode: Mode::Lines,
            options: Options::default(),
            pair: None,
            file: None,
        }),
    }
}

// The mode of a name.
fn mode_named(name: &str) -> Mode
    ensures { result ≡ mode_named name.now }
{
    match name {
        "check" => Mode::Check,
        "rewrite" => Mode::Rewrite,
        "undo" => Mode::Undo,
        "plan" => Mode::Plan,
        "next" => Mode::Next,
        _ => Mode::Lines,
    }
}

// The options of a mode, each with its default if it is left out.
fn options_of<'a>(alloc: Global, matches: &ArgMatches<'a>) -> Result<Options, ArgumentFault<'a>>
    ensures history { IfOk result (λ options. IsOptionValue 0 1000 100 (first_of (codes "history")
        (rows_of (found_of matches.now))) options.history) }
    ensures steps { IfOk result (λ options. IsOptionValue 1 1000 1 (first_of (codes "steps")
        (rows_of (found_of matches.now))) options.steps) }
    ensures floor { IfOk result (λ options. options.floor
        ≡ floor_named (first_of (codes "next-floor") (rows_of (found_of matches.now)))) }
    ensures strategy { IfOk result (λ options. options.plan.strategy
        ≡ strategy_named (first_of (codes "strategy") (rows_of (found_of matches.now)))) }
    ensures output { IfOk result (λ options. options.plan.output
        ≡ output_named (first_of (codes "output") (rows_of (found_of matches.now)))) }
    ensures down { IfOk result
        (λ options. ids_down (first_of (codes "down") (rows_of (found_of matches.now)))
        ≡ Some options.plan.down) }
    ensures range { IfOk result IsInRange }
    ensures fault { IfErr result (λ fault. (file from to : Option Text) →
        IsValueFaultOf file (first_of (codes "down") (rows_of (found_of matches.now))) from to
        fault) }
{
    Ok(Options {
        history: asked_number(text_of(matches, "history"), 0, 1000, 100),
        steps: asked_number(text_of(matches, "steps"), 1, 1000, 1),
        floor: floor_named(text_of(matches, "next-floor")),
        plan: PlanOptions {
            strategy: strategy_named(text_of(matches, "strategy")),
            output: output_named(text_of(matches, "output")),
            down: ids_down(alloc, text_of(matches, "down"))?,
        },
    })
}

// The value of an option or an argument, if it is given.
fn text_of<'a>(matches: &ArgMatches<'a>, id: &str) -> Option<&'a str>
    ensures { option_map (λ text. text.now) result
        ≡ first_of id.now (rows_of (found_of matches.now)) }
{
    matches.get_str(id)
}

// The pair of `--from` and `--to`, if they are given. They come together, and without FILE.
fn pair_of<'a>(
    file: Option<&'a str>,
    down: Option<&'a str>,
    from: Option<&'a str>,
    to: Option<&'a str>,
) -> Result<Option<PairArguments<'a>>, ArgumentFault<'a>>
    ensures pair { IfOk result (λ pair. pair_of (option_map (λ text. text.now) file.entry)
        (option_map (λ text. text.now) from.entry) (option_map (λ text. text.now) to.entry)
        ≡ Some (option_map texts_of pair)) }
    ensures fault { IfErr result (IsValueFaultOf (option_map (λ text. text.now) file.entry)
        (option_map (λ text. text.now) down.entry)
        (option_map (λ text. text.now) from.entry) (option_map (λ text. text.now) to.entry)) }
{
    match (from, to) {
        (None, None) => Ok(None),
        (Some(_), None) => Err(ArgumentFault::FromAlone),
        (None, Some(_)) => Err(ArgumentFault::ToAlone),
        (Some(from), Some(to)) => match (file, down) {
            // If FILE is an id, it was meant to be one of those that are down.
            (Some(file), Some(ids)) if read_id(file.as_bytes()).is_some() => {
                Err(ArgumentFault::IdBesidePair(file, ids))
            }
            (Some(file), _) => Err(ArgumentFault::FileBesidePair(file)),
            (None, _) => match from {
                "" => Err(ArgumentFault::EmptyFrom),
                _ => Ok(Some(PairArguments { from, to })),
            },
        },
    }
}

// The number that a value denotes, or the default if there is no value. `clap` accepts only numbers from `least` to
// `most`.
fn asked_number(value: Option<&str>, least: usize, most: usize, default: usize) -> usize
    requires least { least ≤ default }
    requires most { default ≤ most }
    ensures asked { IsOptionValue least most default (option_map (λ text. text.now) value.entry)
        result }
    ensures least { least ≤ result }
    ensures most { result ≤ most }
{
    let Some(text) = value else {
        return default;
    };
    match text.parse::<usize>() {
        Ok(number) if least <= number && number <= most => number,
        _ => default,
    }
}

// The initial next index that a name denotes: 1 if none is given.
fn floor_named(name: Option<&str>) -> Floor
    ensures { result ≡ floor_named (option_map (λ text. text.now) name.entry) }
{
    match name {
        Some("0") => Floor::Zero,
        _ => Floor::One,
    }
}

// The strategy of a name, if one is given.
fn strategy_named(name: Option<&str>) -> Option<Strategy>
    ensures { result ≡ strategy_named (option_map (λ text. text.now) name.entry) }
{
    match name? {
        "learners-first" => Some(Strategy::LearnersFirst),
        "one-at-a-time" => Some(Strategy::OneAtATime),
        _ => Some(Strategy::Shortest),
    }
}

// The form of output that a name denotes: steps if none is given.
fn output_named(name: Option<&str>) -> PlanOutput
    ensures { result ≡ output_named (option_map (λ text. text.now) name.entry) }
{
    match name {
        Some("script") => PlanOutput::Script,
        Some("table") => PlanOutput::Text(Output::Table),
        Some("json") => PlanOutput::Text(Output::Json),
        _ => PlanOutput::Text(Output::Steps),
    }
}

// The ids of a list, if one is given.
fn ids_down<'a>(
    alloc: Global,
    list: Option<&'a str>,
) -> Result<Option<SessionIds>, ArgumentFault<'a>>
    ensures down { IfOk result (λ down. ids_down (option_map (λ text. text.now) list.entry)
        ≡ Some down) }
    ensures fault { IfErr result (λ fault. (file from to : Option Text) →
        IsValueFaultOf file (option_map (λ text. text.now) list.entry) from to fault) }
{
    let Some(text) = list else {
        return Ok(None);
    };
    match ids_listed(alloc, text.as_bytes())? {
        Some(ids) => Ok(Some(SessionIds::of_list(alloc, ids.as_slice())?)),
        None => match hexadecimal_listed(text.as_bytes()) {
            Some(digits) => Err(ArgumentFault::HexadecimalId(ShortToken::new(digits))),
            None => Err(ArgumentFault::BadIds),
        },
    }
}
