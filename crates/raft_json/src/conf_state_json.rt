//! The JSON of a saved configuration, with the keys that Go's encoding/json uses for a `raftpb.ConfState`.
ghost use Rattle.std.specs.Prelude.{◌≡◌, Some, None, Err, IfOk, option_map};
ghost use Rattle.serde_json.specs.View.{view, members_view};
ghost use Rattle.raft_json.specs.ConfStateJson as spec;
ghost use Rattle.raft_json.specs.ConfStateJson.{conf_state_of_json, conf_state_json};

use crate::ids_json::{ids_in, ids_value};
use conf_change::ConfState;
use quorum_sets::NoMemory;
use serde_json::{Map, Value, put};
use std::alloc::{AllocError, AllocFailed, Global};
use thiserror::Error;

/// Why the JSON of a saved configuration was not read.
#[derive(Clone, Copy, Debug, PartialEq, Eq, Error)]
pub enum JsonFault {
    /// It is not an object of a form that [`saved_of`](crate::saved_of) reads.
    #[error("bad JSON of a configuration")]
    BadJson,
    /// An allocation failed.
    #[error("out of memory")]
    NoMemory,
}

impl From<AllocError> for JsonFault {
    ghost use Rattle.raft_json.specs.declared.conf_state_json.JsonFault.TheVariants.{NoMemory};

    ghost from_gives = { λ _ fault. fault ≡ NoMemory };

    fn from(_error: AllocError) -> JsonFault {
        JsonFault::NoMemory
    }
}

impl From<AllocFailed<u64>> for JsonFault {
    ghost use Rattle.raft_json.specs.declared.conf_state_json.JsonFault.TheVariants.{NoMemory};

    ghost from_gives = { λ _ fault. fault ≡ NoMemory };

    fn from(_error: AllocFailed<u64>) -> JsonFault {
        JsonFault::NoMemory
    }
}

/// The saved configuration that an object with the keys of `raftpb.ConfState` denotes, as Go's encoding/json writes it:
/// `voters`, `voters_outgoing`, `learners`, `learners_next` (lists of ids) and `auto_leave` (a boolean), in any order. A
/// missing or null key is an empty list or false. Any other key is refused with BadJson.
pub(crate) fn conf_state_of(alloc: Global, value: &Value) -> Result<ConfState, JsonFault>
    ensures ok { IfOk result (λ state. conf_state_of_json (view value.now) ≡ Some state) }
    ensures bad { result ≡ Err JsonFault.BadJson → conf_state_of_json (view value.now) ≡ None }
{
    let members = value.as_object().ok_or(JsonFault::BadJson)?;
    if !has_only_keys(members) {
        return Err(JsonFault::BadJson);
    }
    Ok(ConfState {
        voters: ids_in(alloc, value.get("voters"))?,
        voters_outgoing: ids_in(alloc, value.get("voters_outgoing"))?,
        learners: ids_in(alloc, value.get("learners"))?,
        learners_next: ids_in(alloc, value.get("learners_next"))?,
        auto_leave: flag_in(value.get("auto_leave")).ok_or(JsonFault::BadJson)?,
    })
}

// Whether the object has no unknown key. A misspelt key would otherwise count as missing, and its list as empty.
fn has_only_keys(members: &Map<String, Value>) -> bool
    ensures { result ≡ spec.has_only_keys (members_view members.now.entries) }
{
    members.keys().all(|key| is_key(key.as_str()))
}

#[tactic(auto, unfolding(crate::specs::ConfStateJson::is_conf_state_key))]
fn is_key(key: &str) -> bool
    ensures { result ≡ spec.is_conf_state_key key.now }
{
    key == "voters"
        || key == "voters_outgoing"
        || key == "learners"
        || key == "learners_next"
        || key == "auto_leave"
}

/// Reads the boolean at a key, false if the key is missing or null.
pub fn flag_in(value: Option<&Value>) -> Option<bool>
    ensures { result ≡ spec.boolean_in (option_map (λ v. view v.now) value.entry) }
{
    match value {
        None | Some(Value::Null) => Some(false),
        Some(Value::Bool(flag)) => Some(*flag),
        Some(_) => None,
    }
}

/// The JSON of a saved configuration: every key, and the lists in their order. It reads back as the same configuration.
pub fn conf_state_value(alloc: Global, state: &ConfState) -> Result<Value, NoMemory>
    ensures { IfOk result (λ v. view v ≡ conf_state_json state.now) }
{
    let voters = ids_value(alloc, &state.voters)?;
    let voters_outgoing = ids_value(alloc, &state.voters_outgoing)?;
    let learners = ids_value(alloc, &state.learners)?;
    let learners_next = ids_value(alloc, &state.learners_next)?;
    let mut members = Map::new(alloc);
    put(
        &mut members,
        alloc,
        "auto_leave",
        Value::Bool(state.auto_leave),
    )?;
    put(&mut members, alloc, "learners", learners)?;
    put(&mut members, alloc, "learners_next", learners_next)?;
    put(&mut members, alloc, "voters", voters)?;
    put(&mut members, alloc, "voters_outgoing", voters_outgoing)?;
    Ok(Value::Object(members))
}
