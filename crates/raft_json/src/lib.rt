//! The JSON of raftpb messages: saved configurations, and changes to propose to a cluster of etcd's raft.
//!
//! A program that embeds etcd's raft keeps a `raftpb.ConfState` and proposes `raftpb.ConfChangeV2`. Go's encoding/json
//! reads and writes both as objects. [`saved_of`] reads a saved configuration, whose keys may be in any order or missing,
//! and [`conf_state_value`] makes its JSON, with all keys in alphabetical order:
//!
//! ```text
//! {"voters":[1,2,3],"learners":[4]}
//! {"auto_leave":false,"learners":[4],"learners_next":[],"voters":[1,2,3],"voters_outgoing":[]}
//! ```
//!
//! [`saved_of`] reads also what `etcdctl member list -w json` prints, of which it takes the ids and who learns:
//!
//! ```text
//! {"members":[{"ID":1,"name":"a"},{"ID":2,"name":"b","isLearner":true}]}   is   {"voters":[1],"learners":[2]}
//! ```
//!
//! [`conf_change_value`] makes the proposal for a step:
//!
//! ```text
//! simple v4    {"changes":[{"node_id":4,"type":"ConfChangeAddNode"}],"transition":"ConfChangeTransitionAuto"}
//! leave-joint  {"changes":[],"transition":"ConfChangeTransitionAuto"}
//! ```
//!
//! With the transition Auto, etcd makes several changes through a joint configuration, which it leaves automatically. As
//! one proposal, a simple step of several changes ends in the same configuration
//! ([`laws::proposed_step_leads_alike`]):
//!
//! ```text
//! (1 2 3)  --l4 l5-->  (1 2 3)&&(1 2 3) learners=(4 5) autoleave  --auto-leave-->  (1 2 3) learners=(4 5)
//! ```
//!
//! [`conf_state_value`] and [`conf_change_value`] return a JSON value; print it to get its line:
//!
//! ```text
//! let state = saved_of(alloc, &value)?;
//! let line = conf_state_value(alloc, &state)?.to_string(alloc)?;
//! ```
#![tactic(auto)]

pub mod conf_change_json;
pub mod conf_state_json;
mod ids_json;
mod json_text;
pub mod laws;
mod member_list_json;
pub mod proposal;
pub mod saved_json;

pub use conf_change_json::conf_change_value;
pub use conf_state_json::{JsonFault, conf_state_value, flag_in};
pub use ids_json::{ids_in, ids_value};
pub use json_text::json_in;
pub use proposal::{proposed_update, transition_of};
pub use saved_json::saved_of;
