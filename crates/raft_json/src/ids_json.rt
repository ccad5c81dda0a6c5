//! Lists of ids in JSON, such as `[1,2,3]`.
ghost use Rattle.std.specs.Prelude.{◌≡◌, Some, None, Err, IfOk, option_map};
ghost use Rattle.serde_json.specs.View.{view};
ghost use Rattle.raft_json.specs.IdsJson as spec;

use crate::conf_state_json::JsonFault;
use quorum_sets::NoMemory;
use serde_json::Value;
use std::alloc::Global;

/// Reads the ids at a key; the list is empty if the key is missing or null.
pub fn ids_in(alloc: Global, value: Option<&Value>) -> Result<Vec<u64>, JsonFault>
    ensures ok { IfOk result (λ ids. spec.ids_in (option_map (λ v. view v.now) value.entry)
        ≡ Some ids.items) }
    ensures bad { result ≡ Err JsonFault.BadJson
        → spec.ids_in (option_map (λ v. view v.now) value.entry) ≡ None }
{
    match value {
        None | Some(Value::Null) => Ok(Vec::new(alloc)),
        Some(Value::Array(items)) => {
            let mut ids = Vec::with_capacity(alloc, items.len())?;
            for item in items {
                ids.push(item.as_u64().ok_or(JsonFault::BadJson)?)?;
            }
            Ok(ids)
        }
        Some(_) => Err(JsonFault::BadJson),
    }
}

/// The JSON of a list of ids, in its order.
pub fn ids_value(alloc: Global, ids: &[u64]) -> Result<Value, NoMemory>
    ensures { IfOk result (λ v. view v ≡ spec.ids_json ids.now) }
{
    let mut items = Vec::with_capacity(alloc, ids.len())?;
    for id in ids {
        items.push(Value::from(*id))?;
    }
    Ok(Value::Array(items))
}
