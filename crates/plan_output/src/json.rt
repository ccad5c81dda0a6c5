//! The JSON lines of a path, for programs that embed etcd's raft.
//!
//! Each line is one object, with its keys in ascending order. `conf_change` is what to propose to etcd. The other keys
//! are the configuration after the step, how many failures it tolerates, and which step of which path it is. The step
//! `simple v4` from `(1 2 3)` is this object, here with line breaks:
//!
//! ```text
//! {"catch_up":[4],
//!  "conf_change":{"changes":[{"node_id":4,"type":"ConfChangeAddNode"}],"transition":"ConfChangeTransitionAuto"},
//!  "conf_state":{"auto_leave":false,"learners":[],"learners_next":[],"voters":[1,2,3,4],"voters_outgoing":[]},
//!  "may_be_down":1,"plan":1,"step":1,"steps":1,"until_then":0}
//! ```
//!
//! A simple step of several changes is as many lines of one change each, in the order of its list. As one proposal,
//! etcd's raft would make them through a joint configuration that it leaves by itself, in which etcd 3.4.23 panics if
//! entries are applied meanwhile.
//!
//! What names no source here is own.
ghost use Rattle.std.specs.Prelude.{◌≡◌, ◌++◌, false, None, Some, IfOk, OnOk, OnErr, flat_map, option_copied, option_map, slice_get};
ghost use Rattle.quorum_sets.specs.Ids.{ascending};
ghost use Rattle.serde_json.specs.View.{view, members_view};
ghost use Rattle.serde_json.specs.Data.{object};
ghost use Rattle.serde_json.specs.Written.{has_float, members_have_float};
ghost use Rattle.raft_json.specs.IdsJson.{ids_json};
ghost use Rattle.plan_output.specs.Json as spec;
ghost use Rattle.plan_output.specs.Stages as stage_spec;
ghost use Rattle.plan_output.specs.Stages.{stage_after, stalls_with};
ghost use Rattle.plan_output.specs.Json.{each_json, json_text, path_json, value_line, no_plan_json, no_steps_json, step_json};

use crate::stage::{Stage, stalls};
use ascii_text::append::append;
use conf_change::{Config, Step, conf_state};
use conf_plan::Path;
use quorum_sets::{InlineIds, NoMemory};
use raft_json::{conf_change_value, conf_state_value, ids_value};
use serde_json::{Map, Value, put};
use std::alloc::Global;

/// The step that an object describes, and the path.
#[derive(Clone, Copy)]
struct Number {
    // The number of the path, as the caller counts.
    plan: u64,
    // How many steps the path has.
    steps: usize,
    // The number of the step, counted from 1.
    step: usize,
    // Whether the path stalls, if ids are given that are down.
    stalls: Option<bool>,
}

// Appends an object for each change that is proposed, each on its own line: for each step of a path one, and for each
// change of a simple step one. It has what is proposed to etcd, the configuration after it, and how many failures that
// tolerates. With `down` it also has these ids, how many may be down besides them, while the members that have to catch
// up do not count either, and whether the path stalls. A path without a step is one line, `{"plan":1,"steps":0}`, or
// with `down` `{"down":[4],"plan":1,"stalls":false,"steps":0}`, where `stalls` is `true` if the configuration stalls.
// `plan` is the number of the path, as the caller counts. Returns whether the path stalls with the ids that are down.
// On `NoMemory` the text is unchanged.
pub(crate) fn add_json_lines(
    alloc: Global,
    text: &mut Vec<u8>,
    plan: u64,
    now: &Config<InlineIds>,
    path: &Path,
    down: Option<&InlineIds>,
) -> Result<bool, NoMemory>
    ensures ok { OnOk result (text.new.items
        ≡ text.old.items ++ json_text plan now.now path.now (option_copied down.entry)) }
    ensures stalls { IfOk result (λ stalls. stalls
        ≡ stalls_with (option_copied down.entry) now.now path.now) }
    ensures err { OnErr result (text.new.items ≡ text.old.items) }
{
    let stalls = stalls_if_down(alloc, now, path, down)?;
    let each = path.one_change_each(alloc)?;
    let lines = lines_of(alloc, plan, now, &each, down, stalls)?;
    append(text, lines.as_slice())?;
    Ok(stalls.unwrap_or(false))
}

/// Appends the object of two configurations without a plan, such as `{"no_plan":"the target is joint","plan":1}`, on
/// its own line. `plan` is their number, as the caller counts. On `NoMemory` the text is unchanged.
pub fn add_no_plan_line(
    alloc: Global,
    text: &mut Vec<u8>,
    plan: u64,
    why: &str,
) -> Result<(), NoMemory>
    ensures ok { OnOk result (text.new.items ≡ text.old.items
        ++ value_line (no_plan_json plan why.now)) }
    ensures err { OnErr result (text.new.items ≡ text.old.items) }
{
    let why = Value::try_from_str(alloc, why)?;
    let mut members = Map::new(alloc);
    put(&mut members, alloc, "no_plan", why)?;
    put(&mut members, alloc, "plan", Value::from(plan))?;
    add_line(alloc, text, &Value::Object(members))
}

/// The keys of the first line of a path in JSON: that of its first step, or of a path without a step.
pub fn first_line(
    alloc: Global,
    plan: u64,
    now: &Config<InlineIds>,
    path: &Path,
    down: Option<&InlineIds>,
) -> Result<Map<String, Value>, NoMemory>
    ensures line { IfOk result (λ members. slice_get (path_json plan now.now path.now
        (option_copied down.entry)) 0 ≡ Some (object (members_view members.entries))) }
    ensures no_float { IfOk result (λ members. members_have_float (members_view members.entries)
        ≡ false) }
{
    let stalls = stalls_if_down(alloc, now, path, down)?;
    let each = path.one_change_each(alloc)?;
    match each.step(0) {
        Some(step) => {
            let number = Number {
                plan,
                steps: each.len(),
                step: 1,
                stalls,
            };
            let before = Stage::first(alloc, now)?;
            let after = before.next(alloc, step)?;
            step_members(alloc, number, &before, step, &after, down)
        }
        None => no_steps_members(alloc, plan, down, stalls),
    }
}

/// Appends a value, written without spaces, and a newline. On `NoMemory` the text is unchanged.
pub fn add_line(alloc: Global, text: &mut Vec<u8>, value: &Value) -> Result<(), NoMemory>
    requires { has_float (view value.now) ≡ false }
    ensures ok { OnOk result (text.new.items ≡ text.old.items ++ value_line (view value.now)) }
    ensures err { OnErr result (text.new.items ≡ text.old.items) }
{
    let mut line = value.to_vec(alloc)?;
    line.push(b'\n')?;
    append(text, line.as_slice())
}

// The lines of these steps. They are built apart from the text, so that all of them are appended or none.
fn lines_of(
    alloc: Global,
    plan: u64,
    now: &Config<InlineIds>,
    path: &Path,
    down: Option<&InlineIds>,
    stalls: Option<bool>,
) -> Result<Vec<u8>, NoMemory>
    ensures { IfOk result (λ lines. lines.items
        ≡ flat_map value_line (each_json (option_copied down.entry) stalls plan now.now path.now)) }
{
    let mut lines = Vec::new(alloc);
    if path.len() == 0 {
        let members = no_steps_members(alloc, plan, down, stalls)?;
        add_line(alloc, &mut lines, &Value::Object(members))?;
        return Ok(lines);
    }
    let steps = path.as_slice();
    let mut stage = Stage::first(alloc, now)?;
    for (index, step) in steps.iter().enumerate() {
        let number = Number {
            plan,
            steps: steps.len(),
            step: index + 1,
            stalls,
        };
        stage = add_step_line(alloc, &mut lines, number, &stage, step, down)?;
    }
    Ok(lines)
}

// Appends the line of a step from this stage, and returns the stage that it leads to.
fn add_step_line(
    alloc: Global,
    lines: &mut Vec<u8>,
    number: Number,
    before: &Stage,
    step: &Step,
    down: Option<&InlineIds>,
) -> Result<Stage, NoMemory>
    ensures stage { IfOk result (λ after. after ≡ stage_after before.now.config step.now) }
    ensures line { IfOk result (λ after. lines.new.items ≡ lines.old.items ++ value_line
        (step_json (option_copied down.entry) number.stalls number.plan number.steps number.step
        before.now step.now after)) }
{
    let after = before.next(alloc, step)?;
    let members = step_members(alloc, number, before, step, &after, down)?;
    add_line(alloc, lines, &Value::Object(members))?;
    Ok(after)
}

// Whether the path stalls, if ids are given that are down.
fn stalls_if_down(
    alloc: Global,
    now: &Config<InlineIds>,
    path: &Path,
    down: Option<&InlineIds>,
) -> Result<Option<bool>, NoMemory>
    ensures { IfOk result (λ answer. answer
        ≡ option_map (stage_spec.stalls now.now path.now) (option_copied down.entry)) }
{
    match down {
        Some(down) => Ok(Some(stalls(alloc, now, path, down)?)),
        None => Ok(None),
    }
}

// The keys of a path without a step.
fn no_steps_members(
    alloc: Global,
    plan: u64,
    down: Option<&InlineIds>,
    stalls: Option<bool>,
) -> Result<Map<String, Value>, NoMemory>
    ensures { IfOk result (λ members. object (members_view members.entries)
        ≡ no_steps_json (option_copied down.entry) stalls plan) }
{
    let mut members = Map::new(alloc);
    if let Some(down) = down {
        put(&mut members, alloc, "down", set_value(alloc, down)?)?;
    }
    put(&mut members, alloc, "plan", Value::from(plan))?;
    if let Some(stalls) = stalls {
        put(&mut members, alloc, "stalls", Value::Bool(stalls))?;
    }
    put(&mut members, alloc, "steps", Value::from(0u64))?;
    Ok(members)
}

// The keys of a step, which leads from the stage before it to the one after.
fn step_members(
    alloc: Global,
    number: Number,
    before: &Stage,
    step: &Step,
    after: &Stage,
    down: Option<&InlineIds>,
) -> Result<Map<String, Value>, NoMemory>
    ensures { IfOk result (λ members. object (members_view members.entries)
        ≡ step_json (option_copied down.entry) number.stalls number.plan number.steps number.step
        before.now step.now after.now) }
{
    let mut members = step_keys(alloc, number, before, step, after)?;
    if let Some(stalls) = number.stalls {
        put(&mut members, alloc, "stalls", Value::Bool(stalls))?;
    }
    if let Some(down) = down {
        put(
            &mut members,
            alloc,
            "may_be_down_besides",
            count_value(after.may_be_down_besides(down)?),
        )?;
        let ids_down = set_value(alloc, down)?;
        put(&mut members, alloc, "down", ids_down)?;
    }
    put(
        &mut members,
        alloc,
        "catch_up",
        set_value(alloc, after.catching_up())?,
    )?;
    Ok(members)
}

// The ids of a set, in ascending order.
fn set_value(alloc: Global, ids: &InlineIds) -> Result<Value, NoMemory>
    ensures { IfOk result (λ v. view v ≡ ids_json (ascending ids.now)) }
{
    ids_value(alloc, ids.as_slice())
}

// The keys `conf_change` to `until_then`, which every object of a step has.
fn step_keys(
    alloc: Global,
    number: Number,
    before: &Stage,
    step: &Step,
    after: &Stage,
) -> Result<Map<String, Value>, NoMemory>
    ensures { IfOk result (λ members. members_view members.entries
        ≡ spec.step_keys None None number.plan number.steps number.step before.now step.now
        after.now) }
{
    let conf_change = conf_change_value(alloc, before.config(), step)?;
    let state = conf_state(alloc, after.config())?;
    let conf_state = conf_state_value(alloc, &state)?;
    let mut members = Map::new(alloc);
    put(&mut members, alloc, "conf_change", conf_change)?;
    put(&mut members, alloc, "conf_state", conf_state)?;
    put(
        &mut members,
        alloc,
        "may_be_down",
        count_value(after.may_be_down()),
    )?;
    put(&mut members, alloc, "plan", Value::from(number.plan))?;
    put(&mut members, alloc, "step", Value::from(number.step))?;
    put(&mut members, alloc, "steps", Value::from(number.steps))?;
    put(
        &mut members,
        alloc,
        "until_then",
        count_value(after.while_catching_up()),
    )?;
    Ok(members)
}

// A number, or `null` if the voters that count are not a quorum even with none down.
fn count_value(count: Option<usize>) -> Value
    ensures { view result ≡ spec.count_json count }
{
    match count {
        Some(count) => Value::from(count),
        None => Value::Null,
    }
}
