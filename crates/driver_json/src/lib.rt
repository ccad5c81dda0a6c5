//! What to do next, asked and answered in JSON, a line each: for programs in other languages, which send what they know
//! of a cluster and do what is answered.
//!
//! A line is an object with the keys of a view ([`conf_driver::View`]), a target, a strategy, and the ids that are down:
//!
//! ```text
//! {"conf_state":{"voters":[1,2,3]},"conf_index":57,"lead":1,"commit":60,
//!  "progress":[{"id":1,"match":60,"recent_active":true}],"running":[1,2,3],
//!  "target":{"voters":[1,2,4]},"strategy":"learners-first","down":[3]}
//! ```
//!
//! Both configurations and the strategy have to be there. Other keys that are missing or null are 0, false or empty, and
//! unknown keys are ignored. The answer is an object with the key `action`, or with the key `error`:
//!
//! ```text
//! {"action":"start","ids":[4]}                              and so are stop and transfer
//! {"action":"propose","catch_up":[4],"conf_change":..}      the keys of the first line of plan --output json
//! {"action":"wait","ids":[4],"why":"behind"}                and so is stuck
//! {"action":"done"}
//! {"error":"progress[2].match: expected a number from 0 to 18446744073709551615"}
//! ```
//!
//! [`conf_driver::next`] decides. The keys are etcd's where it has them; the form is own.
#![tactic(auto)]

pub mod answer;
pub mod laws;
pub mod line_fault;
mod members;
pub mod place;
pub mod question;
mod values;

pub use answer::add_answer;
pub use line_fault::{Expected, LineFault};
pub use place::{Key, MemberKey, Place};
pub use question::{Question, read_question};
