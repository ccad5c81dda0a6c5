//! A session holds a configuration and runs the directives of a script on it, one after another.
//!
//! A directive's command changes the session (`simple`, `enter-joint`, `leave-joint`, `conf-change`, `restore`, `ack`,
//! `undo`) or asks a question (`conf-state`, `commit-index`, `committed`, `vote`). `simple`, `enter-joint` and
//! `leave-joint` are commands of the tests of etcd's package `confchange`, `committed` and `vote` of those of `quorum`.
//! `undo` is own, and the others do what etcd's raft does elsewhere. A script expects the reply below `----`:
//!
//! ```text
//! simple
//! v1
//! ----
//! voters=(1)
//! 1: StateProbe match=0 next=1
//! ```
//!
//! A command reads its input first and then its arguments, and the first error is the reply. The reply to a refused
//! change is the refusal, and nothing is altered but the last index, which rises by one after every directive.
//!
//! A session keeps the configurations from before its last accepted changes. `undo` plans the way back to one of them
//! and takes it. That configuration and the newer ones are then no longer kept:
//!
//! ```text
//! current (1 2 3)   kept, the newest first: (1 2), (1)
//! undo steps=1
//! current (1 2)     kept: (1)
//! ```
#![tactic(auto)]

mod arguments;
mod buffers;
mod commands;
mod input;
pub mod laws;
mod parameter;
mod reply_texts;
pub mod session;
pub mod session_ids;
mod session_update;
mod state;
pub mod undo_fault;
mod values;
mod values_by_id;

pub use session::Session;
pub use session_ids::SessionIds;
pub use undo_fault::{UndoFault, undo_fault_text};
