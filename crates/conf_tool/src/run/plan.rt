//! The mode `plan`: the input is pairs of lines. The first line of a pair is the current configuration and the second
//! the target, and the reply to the second is the path between them:
//!
//! ```text
//! # replace 1 and 2 by 4 and 5
//! voters=(1 2 3)              ->
//! r1 r2 v4 v5                 ->    enter-joint autoleave=false r1 r2 v4 v5
//!                                   leave-joint
//! ```
//!
//! In place of an input, `--from` and `--to` are one pair.
//!
//! Blank lines and comments are skipped, and still counted in the line numbers of errors. Between the replies to two
//! pairs comes an empty line, but none in JSON. If the replies are scripts, one session runs all of them, so that
//! together they are one script. The first line with an error ends the run. The form of the input is own.
ghost use Rattle.std.specs.Prelude.{◌≡◌, ◌+◌, ◌||◌, ◌++◌, Ok, true, false, IfOk, IfErr, OnOk, IsOkUnless};
ghost use Rattle.conf_change.specs.Configuration.{is_valid};
ghost use Rattle.conf_tool.specs.Outputs.{planned_texts, pair_text, separator, worse_of};
ghost use Rattle.conf_tool.specs.Pairs.{pair_between, pair_of_texts, IsFaultOf};
ghost use Rattle.conf_tool.specs.PlanAnswer.{plan_status, session_between};
ghost use Rattle.conf_tool.specs.Run.{Means, is_read_failure, is_write_failure};
ghost use Rattle.conf_tool.specs.declared.tool_fault.ToolFault.TheVariants.{NoMemory as OutOfMemory};

use super::handler::{Handler, Outcome};
use super::plan_script::default_session;
use crate::options::Options;
use crate::origin::Origin;
use crate::pair::Current;
use crate::pair_arguments::PairArguments;
use crate::pair_reading::{current_of, is_skipped, target_of};
use crate::plan_answer::plan_answer;
use crate::plan_input_fault::PlanInputFault;
use crate::plan_options::{PlanOptions, PlanOutput};
use crate::status::Status;
use crate::tool_fault::ToolFault;
use ascii_text::append::append;
use conf_change::Config;
use conf_session::{Session, SessionIds};
use dd_file::device::Sink;
use dd_file::fault::FileFault;
use dd_file::line::Line;
use dd_file::writing::write_all;
use plan_output::Output;
use quorum_sets::NoMemory;
use std::alloc::Global;

/// The state of the mode: the pair that is being read, and how the pairs before it ended.
#[derive(Drop)]
pub(super) struct Planning {
    alloc: Global,
    options: PlanOptions,
    /// The session that runs the scripts of all pairs, if the output is a script.
    session: Session,
    /// How many lines were read, including those that were skipped.
    lines: usize,
    /// The number of the current pair, counted from 1.
    pair: u64,
    /// The current configuration of that pair, if it was read.
    now: Option<Current>,
    /// The worst status of the pairs before it.
    status: Status,
}

// The worse of two statuses: a run is `Different` if one of its pairs is.
fn worse(former: Status, latter: Status) -> Status
    ensures { Ok result ≡ worse_of former (Ok latter) }
{
    match former {
        Status::Clean => latter,
        Status::Different => Status::Different,
    }
}

// Appends the reply to the pair with this number, and returns its status.
fn pair_answer(
    alloc: Global,
    text: &mut Vec<u8>,
    options: &PlanOptions,
    session: &mut Session,
    number: u64,
    current: &Current,
    target: &Config<SessionIds>,
) -> Result<Status, ToolFault>
    requires valid_now { is_valid current.now.config ≡ true }
    requires valid_target { is_valid target.now ≡ true }
    ensures text { OnOk result (text.new.items
        ≡ text.old.items ++ pair_text options.now session.old number
        (pair_between current.now target.now)) }
    ensures session { OnOk result (session.new
        ≡ session_between options.now session.old (pair_between current.now target.now)) }
    ensures status { IfOk result
        (λ status. status ≡ plan_status options.now (pair_between current.now target.now)) }
    ensures memory { IsOkUnless result OutOfMemory }
{
    if number > 1 {
        append(text, separator(options.output))?;
    }
    plan_answer(alloc, text, options, session, number, current, target)
}

// The text between the replies to two pairs: an empty line, but none in JSON, where each object is a line.
fn separator(output: PlanOutput) -> &'static [u8]
    ensures { result.now ≡ separator output }
{
    match output {
        PlanOutput::Script | PlanOutput::Text(Output::Steps | Output::Table) => b"\n",
        PlanOutput::Text(Output::Json) => b"",
    }
}

impl Handler<Line> for Planning {
    ghost use Rattle.conf_tool.specs.Answered.{HasPlanned, plan_left};
    ghost use Rattle.conf_tool.specs.Outputs.{planned_script};
    ghost use Rattle.conf_tool.specs.declared.mode.Mode.TheVariants.{Plan as OfPlan};

    ghost mode = { OfPlan };

    ghost whole = { λ options. planned_script options.plan };

    ghost left = { λ s. plan_left s.options s.session s.lines s.pair s.now s.status };

    ghost HasAnswered = { λ s. HasPlanned s.lines s.pair s.now };

    // The mode begins with a new session.
    fn new(alloc: Global, options: Options) -> Result<Planning, ToolFault> {
        Ok(Planning {
            alloc,
            session: default_session(alloc)?,
            options: options.plan,
            lines: 0,
            pair: 1,
            now: None,
            status: Status::Clean,
        })
    }

    // Keeps the current configuration, which is the first line of a pair, and replies to the second. Blank lines and
    // comments are skipped. A line with an error ends the run.
    #[inline(always)]
    fn answer(&mut self, line: &Line, text: &mut Vec<u8>) -> Result<(), ToolFault> {
        self.lines += 1;
        if is_skipped(line.as_slice()) {
            return Ok(());
        }
        let origin = Origin::Line(self.lines);
        let written = line.as_slice();
        let Some(current) = &self.now else {
            self.now = Some(current_of(self.alloc, &self.options, origin, written)?);
            return Ok(());
        };
        let target = target_of(self.alloc, &self.options, current, origin, written)?;
        let status = pair_answer(
            self.alloc,
            text,
            &self.options,
            &mut self.session,
            self.pair,
            current,
            &target,
        )?;
        self.pair += 1;
        self.status = worse(self.status, status);
        self.now = None;
        Ok(())
    }

    // Nothing is printed at the end. An input without a pair, and one that ends before the target of a pair, is an
    // error.
    fn end(&mut self, fault: Option<FileFault>, text: &mut Vec<u8>) -> Result<Outcome, NoMemory> {
        let _ = &*text;
        if let Some(fault) = fault {
            return Ok(Err(ToolFault::Script(fault)));
        }
        if let Some(current) = &self.now {
            let missing = PlanInputFault::NoTarget(current.origin);
            return Ok(Err(ToolFault::Configurations(missing)));
        }
        if self.pair <= 1 {
            return Ok(Err(ToolFault::Configurations(PlanInputFault::NotTwoLines)));
        }
        Ok(Ok(self.status))
    }
}

/// Writes the reply to the pair that the values of `--from` and `--to` are, and returns the status of the run.
pub(super) fn answer_texts<W: Sink>(
    alloc: Global,
    options: &PlanOptions,
    texts: PairArguments<'_>,
    writer: &mut W,
) -> Result<Status, ToolFault>
    ensures output { Means (planned_texts options.now texts.entry.from.now texts.entry.to.now)
        result (W.contents writer.old) (W.contents writer.new) }
    ensures read { is_read_failure result ≡ false }
    ensures write { W.has_failed writer.new ≡ (W.has_failed writer.old || is_write_failure result) }
{
    let mut text = Vec::new(alloc);
    let status = texts_answer(alloc, &mut text, options, texts)?;
    write_all(writer, text.as_slice())?;
    Ok(status)
}

// Appends the reply to that pair, and returns its status.
fn texts_answer(
    alloc: Global,
    text: &mut Vec<u8>,
    options: &PlanOptions,
    texts: PairArguments<'_>,
) -> Result<Status, ToolFault>
    ensures text { OnOk result (text.new.items
        ≡ text.old.items ++ (planned_texts options.now texts.entry.from.now
        texts.entry.to.now).text) }
    ensures outcome { IfOk result
        (λ status. (planned_texts options.now texts.entry.from.now texts.entry.to.now).outcome
        ≡ Ok status) }
    ensures fault { IfErr result
        (IsFaultOf (pair_of_texts options.now texts.entry.from.now texts.entry.to.now)) }
{
    let current = current_of(alloc, options, Origin::From, texts.from.as_bytes())?;
    let target = target_of(alloc, options, &current, Origin::To, texts.to.as_bytes())?;
    let mut session = default_session(alloc)?;
    pair_answer(alloc, text, options, &mut session, 1, &current, &target)
}
