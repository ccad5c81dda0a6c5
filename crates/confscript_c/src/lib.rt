//! The library for C, Go, Rust and Python, declared in `include/confscript.h`: the plans, checks and quorums of the
//! crates below, as calls that any language can make.
//!
//! A call takes numbers, texts and lists, and keeps no state. It returns a status and a number, and writes its
//! text, if it has one, into a buffer of the caller:
//!
//! ```text
//! confscript_plan("voters=(1 2 3)", "r1 v5")  ->  done, 46 bytes
//!     enter-joint autoleave=false r1 v5
//!     leave-joint
//! ```
//!
//! If the buffer is too small, nothing is written and the number is the length of the text, so that the caller can call
//! again with a larger buffer. If memory runs out, that is the status, and nothing is written either.
//!
//! ```text
//! confscript_plan         two texts, a strategy        the steps from the first to the second, a table, or JSON
//! confscript_stages       two arrays, a strategy       what to propose on the way, and where each proposal leads
//! confscript_next         arrays, what is known        what to do next on the way: whom to start, wait for, propose
//! confscript_apply        a line, steps                the line after the steps
//! confscript_check        a line                       the first broken invariant, and the id that breaks it
//! confscript_committed    an index for each voter      the committed index
//! confscript_vote         a vote for each voter        pending, lost or won
//! confscript_restore      a configuration in numbers   the configuration, all members catching up
//! confscript_step         a configuration, changes     the configuration after them, and who is catching up
//! confscript_may_be_down  voters, ids with no log      how many ids may be down
//! ```
//!
//! The rules are those of the crates below, which name their sources. The form of the calls is own.
#![tactic(auto)]

mod actions;
mod answer;
mod applying;
mod buffer;
mod checking;
mod input_lines;
pub mod laws;
mod next;
mod numbers;
mod paths;
mod plan_texts;
mod planning;
mod quorums;
mod request;
mod restoring;
mod stages;
mod status;
mod stepping;
mod version;
mod views;

pub use answer::Answer;
pub use applying::confscript_apply;
pub use checking::confscript_check;
pub use next::confscript_next;
pub use planning::confscript_plan;
pub use quorums::{confscript_committed, confscript_may_be_down, confscript_vote};
pub use restoring::confscript_restore;
pub use stages::confscript_stages;
pub use status::confscript_status_text;
pub use stepping::{NumberedChange, confscript_step};
pub use version::confscript_version;
