//! What a plan is made for, as a user writes it: the current configuration, and the target.
//!
//! A configuration is written in one of four forms:
//!
//! ```text
//! voters=(1 2 3) learners=(4)                                                  as the program prints it
//! Voters:[1 2 3] VotersOutgoing:[] Learners:[4] LearnersNext:[] AutoLeave:false
//! {"voters":[1,2,3],"learners":[4]}                                            a raftpb.ConfState
//! {"members":[{"ID":1},{"ID":2},{"ID":3},{"ID":4,"isLearner":true}]}           etcdctl member list -w json
//! ```
//!
//! The target may be a list of changes instead. They are made all at once, in the current configuration, which is left
//! first if it is joint:
//!
//! ```text
//! (1 2 3)               r1 v4 l5    (2 3 4) learners=(5)
//! (2 3 4)&&(1 2 3)      r2          (3 4)
//! (1 2 3)               r7          refused: 7 is not a member
//! (1 2 3)               r3 v3       refused: 3 is removed and added again
//! ```
//!
//! The removal of an id that is not a member is refused, and so is a member that is removed and added again: etcd's raft
//! lets both through, and a user hardly means them.
//!
//! [`read_current`] reads the one and [`read_target`] the other. How a text begins decides in which form it is read, so
//! that an error can say what is wrong in that form. All of this is own.
#![tactic(auto)]

mod changed;
mod form;
mod id_hint;
pub mod laws;
mod nonmember;
mod reading;
mod refusal;
mod short_token;
mod text_fault;
mod text_ids;

pub use id_hint::IdHint;
pub use nonmember::first_nonmember;
pub use reading::{Current, read_current, read_target};
pub use short_token::ShortToken;
pub use text_fault::TextFault;
