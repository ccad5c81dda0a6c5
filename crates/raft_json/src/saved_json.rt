//! The JSON of a saved configuration, in one of two forms: a `raftpb.ConfState`, or the members of a cluster as etcdctl
//! prints them.
ghost use Rattle.std.specs.Prelude.{◌≡◌, Some, None, Err, IfOk};
ghost use Rattle.serde_json.specs.View.{view};
ghost use Rattle.raft_json.specs.SavedJson.{saved_of_json};

use crate::conf_state_json::{JsonFault, conf_state_of};
use crate::member_list_json::conf_state_of_member_list;
use conf_change::ConfState;
use serde_json::Value;
use std::alloc::Global;

/// The saved configuration that a value denotes. An object with the key `members` is what `etcdctl member list -w json`
/// prints: each member has an `ID`, and learns if its `isLearner` is true; other keys are passed over. Any other object
/// is what Go's encoding/json writes for a `raftpb.ConfState`: its keys are `voters`, `voters_outgoing`, `learners`,
/// `learners_next` (lists of ids) and `auto_leave` (a boolean), in any order, and a missing or null key is an empty list
/// or false. If a key repeats, the last one counts. An id is a number up to 2^64-1 without a sign, a fraction or an
/// exponent; ids may repeat, as in a ConfState line. Anything else is refused with BadJson.
pub fn saved_of(alloc: Global, value: &Value) -> Result<ConfState, JsonFault>
    ensures ok { IfOk result (λ state. saved_of_json (view value.now) ≡ Some state) }
    ensures bad { result ≡ Err JsonFault.BadJson → saved_of_json (view value.now) ≡ None }
{
    match value.get("members") {
        Some(list) => conf_state_of_member_list(alloc, list),
        None => conf_state_of(alloc, value),
    }
}
