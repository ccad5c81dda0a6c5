//! What is answered to a line.
ghost use Rattle.std.specs.Prelude.{◌≡◌, ◌++◌, true, false, Ok, IfOk, IfErr, OnOk, OnErr, is_err};
ghost use Rattle.quorum_sets.specs.Ids.{ascending};
ghost use Rattle.conf_change.specs.Configuration.{is_valid};
ghost use Rattle.serde_json.specs.Data.{object, no_members};
ghost use Rattle.serde_json.specs.View.{view, members_view};
ghost use Rattle.serde_json.specs.Written.{has_float, members_have_float};
ghost use Rattle.plan_output.specs.Json.{value_line};
ghost use Rattle.driver_json.specs.Answer as spec;
ghost use Rattle.driver_json.specs.Answer.{action_for, action_json, answer_json, answer_to};
ghost use Rattle.driver_json.specs.Values.{IsFaultOf};

use crate::line_fault::LineFault;
use crate::question::{Question, read_question};
use conf_driver::{Action, NextFault, StuckReason, WaitReason, next};
use conf_plan::{Path, plan_by};
use plan_output::{add_line, first_line};
use quorum_sets::{InlineIds, MemberSet, NoMemory};
use raft_json::ids_value;
use serde_json::{Map, Value, put};
use std::alloc::Global;

/// Appends the answer to a line, with a newline, and returns whether the line is refused. On `NoMemory` the text is
/// unchanged.
pub fn add_answer(alloc: Global, text: &mut Vec<u8>, line: &[u8]) -> Result<bool, NoMemory>
    ensures ok { OnOk result (text.new.items ≡ text.old.items
        ++ value_line (answer_json (answer_to line.now))) }
    ensures refused { IfOk result (λ refused. refused ≡ is_err (answer_to line.now)) }
    ensures err { OnErr result (text.new.items ≡ text.old.items) }
{
    match answer_to(alloc, line) {
        Ok(value) => {
            add_line(alloc, text, &value)?;
            Ok(false)
        }
        Err(LineFault::NoMemory) => Err(NoMemory),
        Err(fault) => {
            let why = fault.to_string(alloc)?;
            let mut members = Map::new(alloc);
            put(&mut members, alloc, "error", Value::String(why))?;
            add_line(alloc, text, &Value::Object(members))?;
            Ok(true)
        }
    }
}

// The object that answers a line, or why it is refused.
fn answer_to(alloc: Global, line: &[u8]) -> Result<Value, LineFault>
    ensures value { IfOk result (λ v. answer_to line.now ≡ Ok (view v)) }
    ensures fault { IfErr result (IsFaultOf (answer_to line.now)) }
    ensures no_float { IfOk result (λ v. has_float (view v) ≡ false) }
{
    let question = read_question(alloc, line)?;
    answer_of(alloc, &question)
}

// The object that answers a question, or why there is no answer.
fn answer_of(alloc: Global, question: &Question) -> Result<Value, LineFault>
    requires valid_now { is_valid question.now.view.conf_state ≡ true }
    requires valid_target { is_valid question.now.target ≡ true }
    ensures value { IfOk result (λ v. spec.answer_of question.now ≡ Ok (view v)) }
    ensures fault { IfErr result (IsFaultOf (spec.answer_of question.now)) }
    ensures no_float { IfOk result (λ v. has_float (view v) ≡ false) }
{
    let action = action_for(alloc, question)?;
    Ok(action_value(alloc, question, &action)?)
}

// What to do next.
fn action_for(alloc: Global, question: &Question) -> Result<Action, LineFault>
    requires valid_now { is_valid question.now.view.conf_state ≡ true }
    requires valid_target { is_valid question.now.target ≡ true }
    ensures action { IfOk result (λ action. action_for question.now ≡ Ok action) }
    ensures fault { IfErr result (IsFaultOf (action_for question.now)) }
{
    let Question {
        view,
        target,
        strategy,
        down,
    } = question;
    match next(alloc, *strategy, target, down, view) {
        Ok(action) => Ok(action),
        Err(NextFault::NoMemory) => Err(LineFault::NoMemory),
        Err(why) => Err(LineFault::NoAnswer(why)),
    }
}

// The object of an action.
fn action_value(alloc: Global, question: &Question, action: &Action) -> Result<Value, NoMemory>
    requires valid_now { is_valid question.now.view.conf_state ≡ true }
    requires valid_target { is_valid question.now.target ≡ true }
    ensures value { IfOk result (λ v. view v ≡ action_json question.now action.now) }
    ensures no_float { IfOk result (λ v. has_float (view v) ≡ false) }
{
    match action {
        Action::Start(ids) => named_value(alloc, "start", ids.as_slice()),
        Action::Stop(ids) => named_value(alloc, "stop", ids.as_slice()),
        Action::Transfer(id) => named_value(alloc, "transfer", &[*id]),
        Action::Propose(_) => proposal_value(alloc, question),
        Action::Wait(why, ids) => reason_value(alloc, "wait", ids, wait_name(*why)),
        Action::Stuck(why, ids) => reason_value(alloc, "stuck", ids, stuck_name(*why)),
        Action::Done => {
            let name = Value::try_from_str(alloc, "done")?;
            let mut members = Map::new(alloc);
            put(&mut members, alloc, "action", name)?;
            Ok(Value::Object(members))
        }
    }
}

// The object of an action that names these ids.
fn named_value(alloc: Global, name: &str, ids: &[u64]) -> Result<Value, NoMemory>
    ensures value { IfOk result (λ v. view v
        ≡ object (spec.ids_members name.now ids.now no_members)) }
    ensures no_float { IfOk result (λ v. has_float (view v) ≡ false) }
{
    Ok(Value::Object(ids_members(alloc, name, ids)?))
}

// The object of an action that names these ids, with the reason.
fn reason_value(alloc: Global, name: &str, ids: &InlineIds, why: &str) -> Result<Value, NoMemory>
    ensures value { IfOk result (λ v. view v
        ≡ object (spec.ids_members name.now (ascending ids.now) (spec.reason why.now))) }
    ensures no_float { IfOk result (λ v. has_float (view v) ≡ false) }
{
    let mut members = ids_members(alloc, name, ids.as_slice())?;
    put(&mut members, alloc, "why", Value::try_from_str(alloc, why)?)?;
    Ok(Value::Object(members))
}

// The keys of an action that names these ids.
fn ids_members(alloc: Global, name: &str, ids: &[u64]) -> Result<Map<String, Value>, NoMemory>
    ensures { IfOk result (λ members. members_view members.entries
        ≡ spec.ids_members name.now ids.now no_members) }
{
    let mut members = Map::new(alloc);
    put(
        &mut members,
        alloc,
        "action",
        Value::try_from_str(alloc, name)?,
    )?;
    put(&mut members, alloc, "ids", ids_value(alloc, ids)?)?;
    Ok(members)
}

// The object of the proposal: the first line of the path, as `plan --output json` prints it, and the action.
fn proposal_value(alloc: Global, question: &Question) -> Result<Value, NoMemory>
    requires valid_now { is_valid question.now.view.conf_state ≡ true }
    requires valid_target { is_valid question.now.target ≡ true }
    ensures value { IfOk result (λ v. view v ≡ spec.proposal_json question.now) }
    ensures no_float { IfOk result (λ v. has_float (view v) ≡ false) }
{
    let path = path_for(alloc, question)?;
    let mut members = first_line_of(alloc, question, &path)?;
    let name = Value::try_from_str(alloc, "propose")?;
    put(&mut members, alloc, "action", name)?;
    Ok(Value::Object(members))
}

// The path, of which `next` has proposed a step: there is one, unless memory runs out.
fn path_for(alloc: Global, question: &Question) -> Result<Path, NoMemory>
    requires valid_now { is_valid question.now.view.conf_state ≡ true }
    requires valid_target { is_valid question.now.target ≡ true }
    ensures { IfOk result (λ path. path ≡ spec.path_for question.now) }
{
    let Question {
        view,
        target,
        strategy,
        down,
    } = question;
    match plan_by(alloc, *strategy, &view.conf_state, target, Some(down)) {
        Ok(path) => Ok(path),
        Err(_) => Err(NoMemory),
    }
}

// The keys of the first line of the path.
fn first_line_of(
    alloc: Global,
    question: &Question,
    path: &Path,
) -> Result<Map<String, Value>, NoMemory>
    ensures line { IfOk result (λ members. members_view members.entries
        ≡ spec.first_line_of question.now path.now) }
    ensures no_float { IfOk result (λ members. members_have_float (members_view members.entries)
        ≡ false) }
{
    let Question {
        view,
        target: _,
        strategy: _,
        down,
    } = question;
    if down.len() == 0 {
        return first_line(alloc, 1, &view.conf_state, path, None);
    }
    first_line(alloc, 1, &view.conf_state, path, Some(down))
}

// The name of a reason to wait.
fn wait_name(why: WaitReason) -> &'static str
    ensures { result.now ≡ spec.wait_name why }
{
    match why {
        WaitReason::NoLeader => "no-leader",
        WaitReason::Pending => "pending",
        WaitReason::Heard => "heard",
        WaitReason::Unheard => "unheard",
        WaitReason::Behind => "behind",
        WaitReason::Leaving => "leaving",
    }
}

// The name of a reason why the target is not reached.
fn stuck_name(why: StuckReason) -> &'static str
    ensures { result.now ≡ spec.stuck_name why }
{
    match why {
        StuckReason::QuorumLost => "quorum-lost",
        StuckReason::Stalls => "stalls",
        StuckReason::Reused => "reused",
    }
}
