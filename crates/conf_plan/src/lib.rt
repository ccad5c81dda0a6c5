//! Plans: the membership changes that lead from one configuration to another.
//!
//! A plan is a list of steps that are accepted one after another. A step is a simple change, or it enters or leaves a
//! joint configuration. [`plan`] returns the shortest plan, which also preserves the progress of the most members and
//! names each id in the fewest changes. It has at most four steps. A plan of four leads from one joint configuration to
//! another:
//!
//! ```text
//! (1 2)&&(1 3)  leave-joint                  -->  (1 2)
//!               enter-joint r1 r2 v3 v4      -->  (3 4)&&(1 2)
//!               leave-joint                  -->  (3 4)
//!               enter-joint r3 v5            -->  (4 5)&&(3 4)
//! ```
//!
//! A cluster may accept a step and then stall: a new voter begins with an empty log, and counts as missing until it has
//! caught up. So [`plan_by`] makes a path, a list of steps of any length, by a [`Strategy`]: the shortest path, one on
//! which new voters are learners first, or one that changes one member at a time. The three paths from (1 2 3) to
//! (3 4 5):
//!
//! ```text
//! shortest         enter-joint r1 r2 v4 v5, leave-joint
//! learners first   simple l4 l5, enter-joint r1 r2 v4 v5, leave-joint
//! one at a time    simple l4, simple v4, simple r1, simple l5, simple v5, simple r2
//! ```
//!
//! A path is made for some ids that are down. If one member changes at a time, voters that are down retire first and
//! join last, since etcd's server adds no member while a voter cannot be reached. [`Path::one_change_each`] gives a path
//! with simple steps of one change each, as it is proposed to etcd's raft.
//!
//! [`apply_plan`] and [`apply_path`] apply the steps to a changer. [`print_plan`] and [`print_path`] write one step per
//! line, and [`read_plan`] and [`read_path`] read them back:
//!
//! ```text
//! let steps = plan(alloc, changer.tracker().config(), &target)?;
//! print_plan(&mut text, &steps)?;
//! apply_plan(&mut changer, &steps)?;
//! ```
#![tactic(auto)]

pub mod apply;
mod catching;
mod filtered;
pub mod laws;
mod learners_first;
mod moves;
mod not_joint;
mod one_at_a_time;
mod one_change_each;
pub mod path;
pub mod planner;
mod shared_members;
pub mod step_list;
pub mod strategy;
pub mod text;

pub use apply::{StepRefused, apply_path, apply_plan};
pub use catching::{catching_up, catching_up_by};
pub use path::Path;
pub use planner::{PlanFault, plan};
pub use step_list::Plan;
pub use strategy::{NoPath, Strategy, plan_by};
pub use text::{
    PlanTextFault, changes_text, command_text, letter, print_path, print_plan, read_path, read_plan,
};
