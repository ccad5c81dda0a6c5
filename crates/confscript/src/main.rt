//! The program: its arguments, its input, its output and its exit status. What a mode prints is in the crate
//! `conf_tool`.
//!
//! ```text
//! 0   done, and in check nothing differs
//! 1   something differs; in undo and plan there is no plan, or it stalls with the ids that are down
//! 2   the arguments or the input are wrong
//! 3   a file, a read or a write failed, or memory ran out
//! ```
//!
//! An error is one line on standard error, `confscript: ` and what is wrong, or a usage error as `clap` prints it. What
//! was printed before the error is a prefix of the output.
#![tactic(auto)]

ghost use Rattle.std.specs.Prelude.{◌≡◌, ◌≢◌, ◌⊎◌, IfSome, map, None};
ghost use Rattle.std.specs.IoError.{error_kind};
ghost use Rattle.std.specs.Process.{exit_status as status_of};
ghost use Rattle.std.specs.declared.io.ErrorKind.TheVariants.{InvalidData};
ghost use Rattle.clap.specs.Words.{kind_of};
ghost use Rattle.dd_file.specs.Device.{LosesPrefix};
ghost use Rattle.dd_file.specs.Gathered.{buffered_writer, NothingBuffered};
ghost use Rattle.conf_tool.specs.ExitStatus.{exit_status_of, ExitsWith, PlansWith};
ghost use Rattle.conf_tool.specs.Outputs.{output_of, planned_texts};
ghost use Rattle.conf_tool.specs.Ranges.{IsInRange};
ghost use Rattle.confscript.specs.Asked.{output_over};
ghost use Rattle.confscript.specs.Ending.{CanEnd, EndsAs, EndsFor, EndsForArguments, EndsForFault, EndsWithError, WritesOut};

mod input_files;

use self::input_files::InputFiles;
use clap::error::ErrorKind;
use conf_tool::command_line::command_line;
use conf_tool::exit_status::exit_status;
use conf_tool::run::{run_and_flush, run_pair_and_flush};
use conf_tool::{
    ArgumentFault, Invocation, Origin, PairArguments, PlanInputFault, PlanOptions, Status,
    ToolFault,
};
use dd_file::blocks::Blocks;
use dd_file::device::{FromRead, Sink, Source, ToWrite};
use std::convert::AsStr;
use std::process::ExitCode;
use std::{env, fs, io};

/// The exit status if all is done.
const DONE: u8 = 0;

/// The exit status if the arguments or the input are wrong.
const BAD_INPUT: u8 = 2;

/// The exit status if a file, a read or a write failed, or memory ran out.
const IO_FAILED: u8 = 3;

fn main(rt: HostRuntime) -> ExitCode {
    match arguments(&rt) {
        Ok(arguments) => run_on_system(&rt, arguments.as_slice()),
        Err(error) => report_arguments(&rt, &error),
    }
}

// The arguments, the first of which is the name of the program.
fn arguments(rt: &HostRuntime) -> io::Result<Vec<String>> {
    let arguments = env::args(rt)?.collect(rt.alloc())?;
    Ok(arguments)
}

// Reports why the arguments could not be read: one of them is not UTF-8, or memory ran out.
fn report_arguments(rt: &HostRuntime, error: &io::Error) -> ExitCode
    ensures text { error_kind error.now ≡ InvalidData → status_of result ≡ 2 }
    ensures memory { error_kind error.now ≢ InvalidData → status_of result ≡ 3 }
{
    if error.kind() != io::ErrorKind::InvalidData {
        return end(rt, Err(ToolFault::NoMemory));
    }
    let _ = eprintln!(rt; "confscript: an argument is not UTF-8");
    ExitCode::from(BAD_INPUT)
}

// Does what the arguments ask for, over the system's files, standard input and standard output. The output is written
// in blocks, which are flushed before a mode waits for input.
fn run_on_system(rt: &HostRuntime, arguments: &[String]) -> ExitCode
    // It ends as is stated for files, an input and an output whose bytes are not known.
    ensures { (status_of result ≡ 3) ⊎
        EndsForArguments (map ⟦<String as AsStr>⟧.text arguments.now) (λ _. None) None None None
        result }
{
    match Blocks::new(rt.alloc(), ToWrite::new(rt.stdout())) {
        Ok(mut output) => run_arguments(
            rt,
            arguments,
            rt,
            &mut FromRead::new(rt.stdin()),
            &mut output,
        ),
        Err(_) => end(rt, Err(ToolFault::NoMemory)),
    }
}

// Does what the arguments ask for, over these files, this standard input and this standard output.
fn run_arguments<F: InputFiles, R: Source, W: Sink>(
    rt: &HostRuntime,
    arguments: &[String],
    files: &F,
    input: &mut R,
    output: &mut Blocks<W>,
) -> ExitCode
    requires empty { NothingBuffered output.old }

    // The mode that they ask for runs over the input that they name, or they are refused.
    ensures ends { EndsForArguments (map ⟦<String as AsStr>⟧.text arguments.now)
        (F.bytes_of files.now)
        (R.remaining input.old) (W.contents (buffered_writer output.old))
        (W.contents (buffered_writer output.new)) result }
    ensures read { status_of result ≢ 3 → R.has_failed input.new ≡ R.has_failed input.old }
    ensures written { WritesOut W.has_failed output.old output.new result }
{
    match command_line(rt.alloc(), arguments) {
        Ok(invocation) => run_invocation(rt, invocation, files, input, output),
        Err(fault) => refuse(rt, fault),
    }
}

// Reports why the arguments are refused.
fn refuse(rt: &HostRuntime, fault: ArgumentFault<'_>) -> ExitCode
    ensures { EndsForFault fault.entry result }
{
    match fault {
        ArgumentFault::Clap(error) => explain(rt, &error),
        ArgumentFault::NoMemory => end(rt, Err(ToolFault::NoMemory)),
        fault => {
            let _ = eprintln!(rt; "confscript: {fault}");
            ExitCode::from(BAD_INPUT)
        }
    }
}

// Prints the help or the version that was asked for, or what is wrong with the arguments.
fn explain(rt: &HostRuntime, error: &clap::Error) -> ExitCode
    ensures { EndsWithError (kind_of error.now) result }
{
    if let ErrorKind::OutOfMemory = error.kind() {
        return end(rt, Err(ToolFault::NoMemory));
    }
    let printed = error.print(rt);
    if error.use_stderr() {
        return ExitCode::from(BAD_INPUT);
    }
    match printed {
        Ok(()) => ExitCode::from(DONE),
        Err(_) => end(rt, Err(ToolFault::Write)),
    }
}

// Plans for the pair that the arguments name, or else runs the mode over the input that they name.
fn run_invocation<F: InputFiles, R: Source, W: Sink>(
    rt: &HostRuntime,
    invocation: Invocation<'_>,
    files: &F,
    input: &mut R,
    output: &mut Blocks<W>,
) -> ExitCode
    requires range { IsInRange invocation.options }
    requires empty { NothingBuffered output.old }
    ensures ends { EndsFor (F.bytes_of files.now) (R.remaining input.old)
        (W.contents (buffered_writer output.old))
        (W.contents (buffered_writer output.new)) invocation.entry result }
    ensures read { status_of result ≢ 3 → R.has_failed input.new ≡ R.has_failed input.old }
    ensures written { WritesOut W.has_failed output.old output.new result }
{
    match invocation.pair {
        Some(texts) => plan_to(rt, invocation.options.plan, texts, output),
        None => run_over(rt, invocation, files, input, output),
    }
}

// Plans for the pair over this writer.
fn plan_to<W: Sink>(
    rt: &HostRuntime,
    options: PlanOptions,
    texts: PairArguments<'_>,
    writer: &mut Blocks<W>,
) -> ExitCode
    requires empty { NothingBuffered writer.old }

    // The exit status is that of the plan from the one text to the other, ..
    ensures output { PlansWith (planned_texts options texts.entry.from.now texts.entry.to.now)
        (⟦<Blocks<W> as Sink>⟧.contents writer.old) (⟦<Blocks<W> as Sink>⟧.contents writer.new)
        result }

    // .. and unless it is 3, the writer below has the whole output.
    ensures given { status_of result ≢ 3
        → PlansWith (planned_texts options texts.entry.from.now texts.entry.to.now)
        (W.contents (buffered_writer writer.old)) (W.contents (buffered_writer writer.new)) result }
    ensures written { WritesOut W.has_failed writer.old writer.new result }
{
    let outcome = run_pair_and_flush(rt.alloc(), options, texts, writer);
    end_pair(rt, texts, outcome)
}

// Reports an error as `end` does, and if a text is the name of a file, how that file's text is given.
fn end_pair(
    rt: &HostRuntime,
    texts: PairArguments<'_>,
    outcome: Result<Status, ToolFault>,
) -> ExitCode
    ensures { status_of result ≡ exit_status_of outcome }
{
    if let Err(fault) = &outcome {
        if let Some(name) = file_named(rt, texts, fault) {
            let _ = eprintln!(rt;
                "confscript: {fault}; a file's text is given as \"$(cat {name})\""
            );
            return ExitCode::from(exit_status(outcome));
        }
    }
    end(rt, outcome)
}

// The text of the pair that this error is in, if it is the name of a file.
fn file_named<'a>(
    rt: &HostRuntime,
    texts: PairArguments<'a>,
    fault: &ToolFault,
) -> Option<&'a str> {
    let name = match fault {
        ToolFault::Configurations(PlanInputFault::BadText(Origin::From, _)) => texts.from,
        ToolFault::Configurations(PlanInputFault::BadText(Origin::To, _)) => texts.to,
        _ => return None,
    };
    match fs::metadata(rt, name) {
        Ok(file) if file.is_file() => Some(name),
        _ => None,
    }
}

// Runs the mode over the file that the arguments name, or over standard input if they name none, or `-`.
fn run_over<F: InputFiles, R: Source, W: Sink>(
    rt: &HostRuntime,
    invocation: Invocation<'_>,
    files: &F,
    input: &mut R,
    output: &mut Blocks<W>,
) -> ExitCode
    requires range { IsInRange invocation.options }
    requires empty { NothingBuffered output.old }
    ensures ends { IfSome (output_over (F.bytes_of files.now) (R.remaining input.old)
        invocation.entry) (λ asked.
        EndsAs asked (W.contents (buffered_writer output.old))
        (W.contents (buffered_writer output.new)) result) }
    ensures kinds { CanEnd invocation.entry.mode result }
    ensures read { status_of result ≢ 3 → R.has_failed input.new ≡ R.has_failed input.old }
    ensures written { WritesOut W.has_failed output.old output.new result }
{
    let name = invocation.file.unwrap_or("-");
    if name == "-" {
        return run_to(rt, invocation, input, output);
    }
    match files.open(name) {
        Ok(file) => run_to(rt, invocation, &mut FromRead::new(file), output),
        Err(_) => {
            let _ = eprintln!(rt; "confscript: cannot open {name}");
            ExitCode::from(IO_FAILED)
        }
    }
}

// Runs the mode over this reader and this writer.
fn run_to<R: Source, W: Sink>(
    rt: &HostRuntime,
    invocation: Invocation<'_>,
    reader: &mut R,
    writer: &mut Blocks<W>,
) -> ExitCode
    requires range { IsInRange invocation.options }
    requires empty { NothingBuffered writer.old }

    // It is the mode with the options that the arguments ask for, and the exit status is that of its result, ..
    ensures output { ExitsWith (output_of invocation.entry.mode invocation.entry.options)
        (R.remaining reader.old)
        (R.remaining reader.new)
        (⟦<Blocks<W> as Sink>⟧.contents writer.old) (⟦<Blocks<W> as Sink>⟧.contents writer.new)
        result }

    // .. and unless it is 3, the writer below has the whole output.
    ensures given { status_of result ≢ 3
        → ExitsWith (output_of invocation.entry.mode invocation.entry.options)
        (R.remaining reader.old) (R.remaining reader.new)
        (W.contents (buffered_writer writer.old)) (W.contents (buffered_writer writer.new)) result }
    ensures consumed { LosesPrefix (R.remaining reader.old) (R.remaining reader.new) }
    ensures kinds { CanEnd invocation.entry.mode result }
    ensures read { status_of result ≢ 3 → R.has_failed reader.new ≡ R.has_failed reader.old }
    ensures written { WritesOut W.has_failed writer.old writer.new result }
{
    let outcome = run_and_flush(
        rt.alloc(),
        invocation.mode,
        invocation.options,
        reader,
        writer,
    );
    end(rt, outcome)
}

// Reports an error, if there is one, in one line on standard error, and returns the exit status.
fn end(rt: &HostRuntime, outcome: Result<Status, ToolFault>) -> ExitCode
    ensures { status_of result ≡ exit_status_of outcome }
{
    if let Err(fault) = &outcome {
        let _ = eprintln!(rt; "confscript: {fault}");
    }
    ExitCode::from(exit_status(outcome))
}
