//! What to do next on the way of a plan: which servers to start and to stop, whom to wait for, when leadership moves, and
//! which step to propose.
//!
//! A plan says which steps lead to a target. [`next`] decides the rest, from what a leader knows of its cluster, or a
//! tool that asks all members. It keeps nothing: whoever leads calls it with a [`View`] of now, does what it answers,
//! and calls it again. From `(1 2 3)` to `(1 2 4)`, with learners first and 1 leading:
//!
//! ```text
//! start 4
//! propose simple l4              (1 2 3) learners=(4)
//! wait, 4 has not caught up
//! propose enter-joint r3 v4      (1 2 4)&&(1 2 3)
//! propose leave-joint            (1 2 4)
//! stop 3
//! done
//! ```
//!
//! The rule is a table, whose first row that applies is the answer (`specs/Rows.antt`). A step is proposed only if who
//! is up and has caught up is a quorum before it and after it, and if nothing gets worse by it that the plan does not
//! name. The names of what is known are those of etcd's raft. The rule is own.
//!
//! ```text
//! match next(alloc, strategy, &target, &down, &view)? {
//!     Action::Propose(step) => ..,
//!     Action::Wait(why, ids) => ..,
//!     ..
//! }
//! ```
#![tactic(auto)]

pub mod action;
pub mod answer;
pub mod laws;
mod rows_of_path;
mod rows_of_step;
mod rows_of_view;
mod sets;
pub mod situation;
pub mod view;

pub use action::{Action, StuckReason, WaitReason};
pub use answer::{NextFault, next};
pub use view::{MemberView, View};
