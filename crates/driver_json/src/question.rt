//! What a line asks.
ghost use Rattle.std.specs.Prelude.{◌≡◌, true, Ok, IfOk, IfErr};
ghost use Rattle.conf_change.specs.Configuration.{is_valid};
ghost use Rattle.serde_json.specs.View.{view};
ghost use Rattle.driver_json.specs.Question.{asked_in, question_in, request_in, view_in};
ghost use Rattle.driver_json.specs.Values.{IsFaultOf};

use crate::line_fault::LineFault;
use crate::members::progress_in;
use crate::place::Key;
use crate::values::{configuration_at, ids_at, number_at, strategy_at};
use conf_change::Config;
use conf_driver::View;
use conf_plan::Strategy;
use quorum_sets::InlineIds;
use raft_json::json_in;
use serde_json::Value;
use std::alloc::Global;

/// What to do next on the way to a target, by a strategy, while these ids are down?
#[derive(Drop)]
pub struct Question {
    pub view: View,
    pub target: Config<InlineIds>,
    pub strategy: Strategy,
    pub down: InlineIds,
}

/// The question that a line asks. An error is that of the first key that is wrong, in the order in which [`Key`] has
/// them. If a key repeats, the last one counts.
pub fn read_question(alloc: Global, line: &[u8]) -> Result<Question, LineFault>
    ensures question { IfOk result (λ question. asked_in line.now ≡ Ok question) }
    ensures valid_now { IfOk result (λ question. is_valid question.view.conf_state ≡ true) }
    ensures valid_target { IfOk result (λ question. is_valid question.target ≡ true) }
    ensures fault { IfErr result (IsFaultOf (asked_in line.now)) }
{
    match json_in(alloc, line)? {
        Some(value) if value.is_object() => question_in(alloc, &value),
        _ => Err(LineFault::NotAnObject),
    }
}

// The question that an object asks.
fn question_in(alloc: Global, line: &Value) -> Result<Question, LineFault>
    ensures question { IfOk result (λ question. question_in (view line.now) ≡ Ok question) }
    ensures valid_now { IfOk result (λ question. is_valid question.view.conf_state ≡ true) }
    ensures valid_target { IfOk result (λ question. is_valid question.target ≡ true) }
    ensures fault { IfErr result (IsFaultOf (question_in (view line.now))) }
{
    let view = view_in(alloc, line)?;
    let target = configuration_at(alloc, line, Key::Target)?;
    let (strategy, down) = request_in(alloc, line)?;
    Ok(Question {
        view,
        target,
        strategy,
        down,
    })
}

// By which strategy, and while which ids are down.
fn request_in(alloc: Global, line: &Value) -> Result<(Strategy, InlineIds), LineFault>
    ensures request { IfOk result (λ request. request_in (view line.now) ≡ Ok request) }
    ensures fault { IfErr result (IsFaultOf (request_in (view line.now))) }
{
    Ok((strategy_at(line)?, ids_at(alloc, line, Key::Down)?))
}

// The view that an object has.
fn view_in(alloc: Global, line: &Value) -> Result<View, LineFault>
    ensures seen { IfOk result (λ seen. view_in (view line.now) ≡ Ok seen) }
    ensures valid { IfOk result (λ seen. is_valid seen.conf_state ≡ true) }
    ensures fault { IfErr result (IsFaultOf (view_in (view line.now))) }
{
    Ok(View {
        conf_state: configuration_at(alloc, line, Key::ConfState)?,
        conf_index: number_at(line, Key::ConfIndex)?,
        lead: number_at(line, Key::Lead)?,
        commit: number_at(line, Key::Commit)?,
        pending_conf_index: number_at(line, Key::PendingConfIndex)?,
        progress: progress_in(alloc, line.get("progress"))?,
        running: ids_at(alloc, line, Key::Running)?,
        retired: ids_at(alloc, line, Key::Retired)?,
        max_lag: number_at(line, Key::MaxLag)?,
    })
}
