//! The members of a cluster, as `etcdctl member list -w json` prints them. They are the voters and the learners of a
//! configuration that is not joint:
//!
//! ```text
//! {"header":{..},"members":[{"ID":1,"name":"a",..},{"ID":2,"name":"b",..,"isLearner":true}]}
//! Voters:[1] VotersOutgoing:[] Learners:[2] LearnersNext:[] AutoLeave:false
//! ```
ghost use Rattle.std.specs.Prelude.{◌≡◌, Some, None, Err, IfOk};
ghost use Rattle.serde_json.specs.View.{view};
ghost use Rattle.raft_json.specs.MemberListJson as spec;
ghost use Rattle.raft_json.specs.MemberListJson.{conf_state_of_member_list};

use crate::conf_state_json::{JsonFault, flag_in};
use conf_change::ConfState;
use serde_json::Value;
use std::alloc::Global;

/// A member of a cluster.
#[derive(Clone, Copy)]
struct Member {
    id: u64,
    is_learner: bool,
}

/// The saved configuration with the members that are listed, in their order. An id may repeat.
pub(crate) fn conf_state_of_member_list(alloc: Global, list: &Value) -> Result<ConfState, JsonFault>
    ensures ok { IfOk result (λ state. conf_state_of_member_list (view list.now) ≡ Some state) }
    ensures bad { result ≡ Err JsonFault.BadJson → conf_state_of_member_list (view list.now)
        ≡ None }
{
    let items = list.as_array().ok_or(JsonFault::BadJson)?;
    let mut voters = Vec::with_capacity(alloc, items.len())?;
    let mut learners = Vec::new(alloc);
    for item in items {
        let member = member_of(item).ok_or(JsonFault::BadJson)?;
        if member.is_learner {
            learners.push(member.id)?;
        } else {
            voters.push(member.id)?;
        }
    }
    Ok(ConfState {
        voters,
        voters_outgoing: Vec::new(alloc),
        learners,
        learners_next: Vec::new(alloc),
        auto_leave: false,
    })
}

// The member that a value denotes. Etcd leaves `isLearner` out if it is false.
fn member_of(value: &Value) -> Option<Member>
    ensures { result ≡ spec.member_of_json (view value.now) }
{
    let id = value.get("ID")?.as_u64()?;
    let is_learner = flag_in(value.get("isLearner"))?;
    Some(Member { id, is_learner })
}
