//! What the mode `plan` answers: the plan between two configurations, or why there is none.
ghost use Rattle.std.specs.Prelude.{◌≡◌, ◌++◌, true, IfOk, OnOk, IsOkUnless};
ghost use Rattle.conf_change.specs.Configuration.{is_valid};
ghost use Rattle.plan_output.specs.Stages.{stalls_with};
ghost use Rattle.conf_tool.specs.Pairs.{pair_between};
ghost use Rattle.conf_tool.specs.PlanAnswer.{no_plan_text, path_status, path_text, plan_text_between, plan_status, session_as, session_between};
ghost use Rattle.conf_tool.specs.declared.tool_fault.ToolFault.TheVariants.{NoMemory as OutOfMemory};

use crate::pair::Current;
use crate::plan_options::{PlanOptions, PlanOutput};
use crate::run::plan_script::script_text;
use crate::status::Status;
use crate::tool_fault::ToolFault;
use ascii_text::append::append;
use conf_change::Config;
use conf_plan::{NoPath, Path, plan_by};
use conf_session::{Session, SessionIds};
use plan_output::{Output, add_no_plan_line, add_path, stall_note};
use quorum_sets::NoMemory;
use std::alloc::Global;

/// Appends the plan between two configurations, or why there is none, and returns the status with it. The number is that
/// of the pair, counted from 1. If the text is a script, the session has run it.
pub(crate) fn plan_answer(
    alloc: Global,
    text: &mut Vec<u8>,
    options: &PlanOptions,
    session: &mut Session,
    number: u64,
    current: &Current,
    target: &Config<SessionIds>,
) -> Result<Status, ToolFault>
    requires valid_now { is_valid current.now.config ≡ true }
    requires valid_target { is_valid target.now ≡ true }
    ensures text { OnOk result (text.new.items
        ≡ text.old.items ++ plan_text_between options.now session.old number
        (pair_between current.now target.now)) }
    ensures session { OnOk result (session.new
        ≡ session_between options.now session.old (pair_between current.now target.now)) }
    ensures status { IfOk result
        (λ status. status ≡ plan_status options.now (pair_between current.now target.now)) }
    ensures memory { IsOkUnless result OutOfMemory }
{
    let down = options.down.as_ref();
    let now = &current.config;
    match plan_by(alloc, current.strategy, now, target, down) {
        Ok(path) => path_answer(alloc, text, options, session, number, now, &path),
        Err(NoPath::NoVoterNow) => {
            let why = "the current configuration has no voter";
            no_plan(alloc, text, options.output, number, why)
        }
        Err(NoPath::NoVoterTarget) => {
            no_plan(
                alloc,
                text,
                options.output,
                number,
                "the target has no voter",
            )
        }
        Err(NoPath::JointTarget) => {
            no_plan(alloc, text, options.output, number, "the target is joint")
        }
        Err(NoPath::NoMemory) => Err(ToolFault::NoMemory),
    }
}

// Appends the text of a path from a configuration, and returns the status with it.
fn path_answer(
    alloc: Global,
    text: &mut Vec<u8>,
    options: &PlanOptions,
    session: &mut Session,
    number: u64,
    now: &Config<SessionIds>,
    path: &Path,
) -> Result<Status, ToolFault>
    ensures text { OnOk result (text.new.items
        ≡ text.old.items ++ path_text options.now session.old number now.now path.now) }
    ensures session { OnOk result (session.new
        ≡ session_as options.now.output session.old options.now.down now.now path.now) }
    ensures status { IfOk result (λ status. status
        ≡ path_status options.now.down now.now path.now) }
    ensures memory { IsOkUnless result OutOfMemory }
{
    if append_path(alloc, text, options, session, number, now, path)? {
        Ok(Status::Different)
    } else {
        Ok(Status::Clean)
    }
}

// Appends the text of a path from a configuration, and returns whether it stalls with the ids that are down.
fn append_path(
    alloc: Global,
    text: &mut Vec<u8>,
    options: &PlanOptions,
    session: &mut Session,
    number: u64,
    now: &Config<SessionIds>,
    path: &Path,
) -> Result<bool, NoMemory>
    ensures text { OnOk result (text.new.items
        ≡ text.old.items ++ path_text options.now session.old number now.now path.now) }
    ensures session { OnOk result (session.new
        ≡ session_as options.now.output session.old options.now.down now.now path.now) }
    ensures stalls { IfOk result (λ stalls. stalls
        ≡ stalls_with options.now.down now.now path.now) }
{
    let down = options.down.as_ref();
    match options.output {
        PlanOutput::Script => {
            let note = stall_note(alloc, now, path, down)?;
            let script = script_text(alloc, session, note.as_ref(), now, path)?;
            append(text, script.as_slice())?;
            Ok(note.is_some())
        }
        PlanOutput::Text(output) => add_path(alloc, text, output, number, now, path, down),
    }
}

// Appends the answer to the pair with this number if it has no plan, and returns its status.
fn no_plan(
    alloc: Global,
    text: &mut Vec<u8>,
    output: PlanOutput,
    number: u64,
    why: &str,
) -> Result<Status, ToolFault>
    ensures text { OnOk result (text.new.items ≡ text.old.items
        ++ no_plan_text output number why.now) }
    ensures status { IfOk result (λ status. status ≡ Status.Different) }
    ensures memory { IsOkUnless result OutOfMemory }
{
    match output {
        PlanOutput::Script | PlanOutput::Text(Output::Steps | Output::Table) => {
            append(text, b"# no plan: ")?;
            append(text, why.as_bytes())?;
            append(text, b"\n")?;
        }
        PlanOutput::Text(Output::Json) => add_no_plan_line(alloc, text, number, why)?,
    }
    Ok(Status::Different)
}
