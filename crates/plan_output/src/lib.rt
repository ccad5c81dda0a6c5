//! How a path is printed: as its steps, as a table, which an operator reads, and as JSON lines, which a program reads.
//!
//! A path from one configuration to another is safe if each of its steps is accepted, but the cluster that takes it has
//! to go on serving. A new member begins with an empty log and has to catch up. Until then it is no help to a quorum,
//! as if it were down. So an operator asks three things of each configuration on the way, a [`Stage`]: how many members
//! may be down there, how many until the new ones have caught up, and how many besides certain members that are down.
//!
//! Here 1 and 2 are replaced by 4 and 5 in one change:
//!
//! ```text
//! step                                       1 2 3 4 5  majority           may be down  catch up  until then
//! now                                        V V V . .  2 of 3             1
//! 1 enter-joint autoleave=false r1 r2 v4 v5  - - V + +  2 of 3 and 2 of 3  1            4 5       stalls
//! 2 leave-joint                              . . V V V  2 of 3             1
//! ```
//!
//! In the joint configuration nothing commits until 4 or 5 has caught up, not even the step that leaves it, since 3
//! alone is not a majority of 3, 4 and 5. The remedy is a path on which 4 and 5 are learners first (section 4.2.1 of
//! Ongaro's dissertation).
//!
//! [`stages`] returns the configurations on the way, and [`stalls`] whether nothing commits in one of them.
//! [`add_path`] appends the path in an [`Output`]: the lines of its steps, the table, or JSON lines. These have an
//! object for each step, with the change to propose to etcd's raft for it, where a simple step of several changes is as
//! many steps of one. Carried out one after another, they lead to the target
//! ([`laws::json_lines_lead_to_the_target`]). The table, the marks and the keys of the objects are own.
#![tactic(auto)]

mod cells;
mod grid;
mod json;
pub mod laws;
mod names;
mod output;
mod stage;
mod steps;
mod table;

pub use json::{add_line, add_no_plan_line, first_line};
pub use output::{Output, add_path};
pub use stage::{Stage, after_step, stages, stalls};
pub use steps::stall_note;
