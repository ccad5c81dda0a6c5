//! The values at the keys of a line.
ghost use Rattle.std.specs.Prelude.{◌≡◌, true, Ok, IfOk, IfErr, option_map};
ghost use Rattle.conf_change.specs.Configuration.{is_valid};
ghost use Rattle.conf_change.specs.Violation.{valid_of};
ghost use Rattle.serde_json.specs.View.{view};
ghost use Rattle.driver_json.specs.Values as spec;
ghost use Rattle.driver_json.specs.Values.{IsFaultOf};

use crate::line_fault::{Expected, LineFault};
use crate::place::{Key, Place};
use conf_change::{ConfState, Config, ConfigurationFault, valid_configuration};
use conf_plan::Strategy;
use quorum_sets::{InlineIds, MemberSet};
use raft_json::{JsonFault, ids_in, saved_of};
use serde_json::Value;
use std::alloc::Global;

/// The number that a value is, 0 if it is missing or null.
pub(crate) fn number_in(value: Option<&Value>) -> Option<u64>
    ensures { result ≡ spec.number_in (option_map (λ v. view v.now) value.entry) }
{
    match value {
        None | Some(Value::Null) => Some(0),
        Some(value) => value.as_u64(),
    }
}

/// The number at a key.
pub(crate) fn number_at(line: &Value, key: Key) -> Result<u64, LineFault>
    ensures { result ≡ spec.number_at key (view line.now) }
{
    number_in(line.get(key.name())).ok_or(not_expected(key, Expected::Number))
}

/// The set of ids at a key. 0 is not an id.
pub(crate) fn ids_at(alloc: Global, line: &Value, key: Key) -> Result<InlineIds, LineFault>
    ensures ids { IfOk result (λ ids. spec.ids_at key (view line.now) ≡ Ok ids) }
    ensures fault { IfErr result (IsFaultOf (spec.ids_at key (view line.now))) }
{
    match ids_in(alloc, line.get(key.name())) {
        Ok(list) => {
            let ids = InlineIds::of_list(alloc, list.as_slice())?;
            if ids.contains(0) {
                return Err(not_expected(key, Expected::Ids));
            }
            Ok(ids)
        }
        Err(JsonFault::BadJson) => Err(not_expected(key, Expected::Ids)),
        Err(JsonFault::NoMemory) => Err(LineFault::NoMemory),
    }
}

/// The strategy that is named.
pub(crate) fn strategy_at(line: &Value) -> Result<Strategy, LineFault>
    ensures { result ≡ spec.strategy_at (view line.now) }
{
    let name = line.get("strategy").and_then(Value::as_str);
    name.and_then(strategy_named)
        .ok_or(not_expected(Key::Strategy, Expected::Strategy))
}

// The strategy of a name.
fn strategy_named(name: &str) -> Option<Strategy>
    ensures { result ≡ spec.strategy_named name.now }
{
    match name {
        "learners-first" => Some(Strategy::LearnersFirst),
        "one-at-a-time" => Some(Strategy::OneAtATime),
        "shortest" => Some(Strategy::Shortest),
        _ => None,
    }
}

/// The valid configuration at a key.
pub(crate) fn configuration_at(
    alloc: Global,
    line: &Value,
    key: Key,
) -> Result<Config<InlineIds>, LineFault>
    ensures configuration { IfOk result (λ c. spec.configuration_at key (view line.now) ≡ Ok c) }
    ensures valid { IfOk result (λ c. is_valid c ≡ true) }
    ensures fault { IfErr result (IsFaultOf (spec.configuration_at key (view line.now))) }
{
    match line.get(key.name()) {
        Some(value) => match saved_of(alloc, value) {
            Ok(state) => valid_at(alloc, key, &state),
            Err(JsonFault::BadJson) => Err(not_expected(key, Expected::ConfState)),
            Err(JsonFault::NoMemory) => Err(LineFault::NoMemory),
        },
        None => Err(not_expected(key, Expected::ConfState)),
    }
}

// The valid configuration that a saved one describes.
fn valid_at(alloc: Global, key: Key, state: &ConfState) -> Result<Config<InlineIds>, LineFault>
    ensures configuration { IfOk result (λ c. spec.valid_at key (valid_of state.now) ≡ Ok c) }
    ensures valid { IfOk result (λ c. is_valid c ≡ true) }
    ensures fault { IfErr result (IsFaultOf (spec.valid_at key (valid_of state.now))) }
{
    match valid_configuration(alloc, state) {
        Ok(config) => Ok(config),
        Err(ConfigurationFault::NotAConfiguration(violation)) => {
            Err(LineFault::NotValid(key, violation))
        }
        Err(ConfigurationFault::BadConfState) => Err(not_expected(key, Expected::ConfState)),
        Err(ConfigurationFault::NoMemory) => Err(LineFault::NoMemory),
    }
}

// That the value at a key is not what is expected there.
fn not_expected(key: Key, expected: Expected) -> LineFault
    ensures { result ≡ spec.not_expected key expected }
{
    LineFault::NotExpected(Place::AtKey(key), expected)
}
