//! Running a mode, over any reader and writer.
ghost use Rattle.std.specs.Prelude.{◌≡◌, ◌||◌, ℕ, Bool, List, Option, true, false};
ghost use Rattle.dd_file.specs.Device.{LosesPrefix};
ghost use Rattle.dd_file.specs.Gathered.{buffered_writer, NothingBuffered};
ghost use Rattle.conf_tool.specs.Outputs.{Output, output_of, planned_texts};
ghost use Rattle.conf_tool.specs.Ranges.{IsInRange};
ghost use Rattle.conf_tool.specs.Run.{Answers, CanAnswer, Means, ReportsWrite, is_read_failure, is_write_failure, is_whole_output};
ghost use Rattle.conf_tool.specs.declared.mode.Mode.{Mode as ModeName};

mod check;
mod clean_unless;
mod handler;
mod lines;
mod next;
mod plan;
pub(crate) mod plan_script;
mod rewrite;
mod step_items;
mod undo;

use self::check::Checking;
use self::handler::run_by_part;
use self::lines::LineByLine;
use self::next::Deciding;
use self::plan::{Planning, answer_texts};
use self::rewrite::Rewriting;
use self::undo::Undoing;
use crate::mode::Mode;
use crate::options::Options;
use crate::pair_arguments::PairArguments;
use crate::plan_options::PlanOptions;
use crate::status::Status;
use crate::tool_fault::ToolFault;
use dd_file::blocks::Blocks;
use dd_file::device::{Sink, Source};
use dd_file::item_draft::ItemDraft;
use dd_file::laws::nothing_waits;
use dd_file::line::LineDraft;
use std::alloc::Global;

/// Reads the input to its end, and writes the mode's output. Nothing is tried again. If a read, a write or an
/// allocation fails, the writer has a prefix of the output; after an error in the input it has all of it.
pub fn run<R: Source, W: Sink>(
    alloc: Global,
    mode: Mode,
    options: Options,
    reader: &mut R,
    writer: &mut W,
) -> Result<Status, ToolFault>
    requires { IsInRange options }

    // What is written is the output, or a prefix of it, for each input that agrees with what was read.
    ensures output { Answers (output_of mode options) (R.remaining reader.old)
        (R.remaining reader.new)
        (W.contents writer.old) (W.contents writer.new) result }
    ensures consumed { LosesPrefix (R.remaining reader.old) (R.remaining reader.new) }

    // The reader has failed exactly if it had failed before or `Read` is returned, and likewise the writer and `Write`.
    // Other errors and statuses are only those of the mode.
    ensures read { R.has_failed reader.new ≡ (R.has_failed reader.old || is_read_failure result) }
    ensures write { W.has_failed writer.new ≡ (W.has_failed writer.old || is_write_failure result) }
    // If a read fails, all that was written has been flushed. Any read may fail, so a run reads only once its replies
    // are flushed: a program that waits for them before it asks for more is not kept waiting.
    ensures asks { is_read_failure result ≡ true → W.IsFlushed writer.new }
    ensures kinds { CanAnswer mode result }
{
    match mode {
        Mode::Lines => run_by_part::<LineDraft, LineByLine, R, W>(alloc, options, reader, writer),
        Mode::Check => run_by_part::<ItemDraft, Checking, R, W>(alloc, options, reader, writer),
        Mode::Rewrite => run_by_part::<ItemDraft, Rewriting, R, W>(alloc, options, reader, writer),
        Mode::Undo => run_by_part::<ItemDraft, Undoing, R, W>(alloc, options, reader, writer),
        Mode::Plan => run_by_part::<LineDraft, Planning, R, W>(alloc, options, reader, writer),
        Mode::Next => run_by_part::<LineDraft, Deciding, R, W>(alloc, options, reader, writer),
    }
}

/// Runs a mode over a buffered writer whose buffer is empty, and flushes it at the end, also after an error. If the
/// flush fails, success or an error in the input becomes `Write`.
pub fn run_and_flush<R: Source, W: Sink>(
    alloc: Global,
    mode: Mode,
    options: Options,
    reader: &mut R,
    writer: &mut Blocks<W>,
) -> Result<Status, ToolFault>
    requires range { IsInRange options }
    requires empty { NothingBuffered writer.old }

    // What the blocks have, in their writer and in the buffer, is the output, or a prefix of it, for each input that
    // agrees with what was read, ..
    ensures output { Answers (output_of mode options) (R.remaining reader.old)
        (R.remaining reader.new)
        (⟦<Blocks<W> as Sink>⟧.contents writer.old) (⟦<Blocks<W> as Sink>⟧.contents writer.new)
        result }

    // .. and their writer has all of it, if the result means that the output is whole.
    ensures whole { is_whole_output result ≡ true → NothingBuffered writer.new ×
        Answers (output_of mode options) (R.remaining reader.old) (R.remaining reader.new)
        (W.contents (buffered_writer writer.old)) (W.contents (buffered_writer writer.new)) result }

    // Nothing is left in the buffer, unless the writer has failed.
    ensures flushed { W.has_failed (buffered_writer writer.new) ≡ false
        → NothingBuffered writer.new }
    ensures consumed { LosesPrefix (R.remaining reader.old) (R.remaining reader.new) }

    // A failed read and `NoMemory` take precedence over a failed write.
    ensures read { R.has_failed reader.new ≡ (R.has_failed reader.old || is_read_failure result) }
    ensures write { ReportsWrite (W.has_failed (buffered_writer writer.old))
        (W.has_failed (buffered_writer writer.new)) result }

    // A run reads only once its replies are flushed, also below the blocks.
    ensures asks { is_read_failure result ≡ true → W.IsFlushed (buffered_writer writer.new) }
    ensures kinds { CanAnswer mode result }
{
    let outcome = run(alloc, mode, options, reader, writer);
    nothing_waits::<W>();
    flush_after(outcome, writer)
}

/// Runs `plan` over the pair on the command line, with a buffered writer whose buffer is empty, and flushes it at the
/// end, as [`run_and_flush`] does.
pub fn run_pair_and_flush<W: Sink>(
    alloc: Global,
    options: PlanOptions,
    texts: PairArguments<'_>,
    writer: &mut Blocks<W>,
) -> Result<Status, ToolFault>
    requires { NothingBuffered writer.old }
    ensures output { Means (planned_texts options texts.entry.from.now texts.entry.to.now) result
        (⟦<Blocks<W> as Sink>⟧.contents writer.old) (⟦<Blocks<W> as Sink>⟧.contents writer.new) }
    ensures whole { is_whole_output result ≡ true → NothingBuffered writer.new ×
        Means (planned_texts options texts.entry.from.now texts.entry.to.now) result
        (W.contents (buffered_writer writer.old)) (W.contents (buffered_writer writer.new)) }
    ensures flushed { W.has_failed (buffered_writer writer.new) ≡ false
        → NothingBuffered writer.new }
    ensures read { is_read_failure result ≡ false }
    ensures write { ReportsWrite (W.has_failed (buffered_writer writer.old))
        (W.has_failed (buffered_writer writer.new)) result }
{
    let outcome = answer_texts(alloc, &options, texts, writer);
    nothing_waits::<W>();
    flush_after(outcome, writer)
}

// Flushes the output of a run with this outcome. If the flush fails, success or an error in the input becomes `Write`.
fn flush_after<W: Sink>(
    outcome: Result<Status, ToolFault>,
    writer: &mut Blocks<W>,
) -> Result<Status, ToolFault>
    ensures output { (output : Output) (before : Option (List ℕ))
        → Means output outcome before (⟦<Blocks<W> as Sink>⟧.contents writer.old)
        → Means output result before (⟦<Blocks<W> as Sink>⟧.contents writer.new) }
    ensures whole { is_whole_output result ≡ true → NothingBuffered writer.new }
    ensures flushed { W.has_failed (buffered_writer writer.new) ≡ false
        → NothingBuffered writer.new }
    ensures nothing { NothingBuffered writer.old
        → buffered_writer writer.new ≡ buffered_writer writer.old }
    ensures read { is_read_failure result ≡ is_read_failure outcome }
    ensures write { (before : Bool) → W.has_failed (buffered_writer writer.old)
        ≡ (before || is_write_failure outcome)
        → ReportsWrite before (W.has_failed (buffered_writer writer.new)) result }
    ensures kinds { (mode : ModeName) → CanAnswer mode outcome → CanAnswer mode result }
{
    match writer.flush() {
        Err(_) if is_whole_output(&outcome) => Err(ToolFault::Write),
        _ => outcome,
    }
}

/// Whether a result means that the output is whole: a status, or an error in the input.
fn is_whole_output(outcome: &Result<Status, ToolFault>) -> bool
    ensures { result ≡ is_whole_output outcome.now }
{
    matches!(
        outcome,
        Ok(_) | Err(ToolFault::Script(_) | ToolFault::Configurations(_))
    )
}
