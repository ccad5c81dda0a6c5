//! Majorities and quorums: who has to agree before a log entry is committed or a leader is elected.
//!
//! A server is named by its id, and the voters of a configuration are a set of ids. More than half of the voters are a
//! majority of them. A joint configuration has two sets of voters, the incoming and the outgoing ones, and a quorum is
//! a majority of each:
//!
//! ```text
//! (1 2 3)            1 2 is a quorum, and so is any other pair
//! (2 3 4)&&(1 2 3)   2 3 is a quorum, and so is 1 2 4; 1 4 is not, since it is a majority of neither set
//! ```
//!
//! Raft decides by quorums. The committed index is the greatest index that a quorum has acknowledged, and a vote is won
//! once a quorum has granted it. Any two quorums of one configuration share an id, and so do quorums of neighbouring
//! configurations, which are one safe change apart ([`common_member`] returns a shared id). So what one quorum has
//! committed is known to a member of the other.
//!
//! ```text
//! let voters = TreeIds::of_list(alloc, &[1, 2, 3])?;
//! let index = committed(alloc, &voters, &acks)?;   // 5, if 1, 2 and 3 have acknowledged 7, 5 and 4
//! ```
//!
//! The rules are those of etcd's package `quorum` and of sections 4.1 and 4.3 of Ongaro's dissertation. How many voters
//! may be down is in neither: it is confscript's own, as is whatever is marked (own). Every call works on any
//! [`MemberSet`].
#![tactic(auto)]

mod acknowledgement;
mod charts;
mod commit;
mod counting;
mod difference;
mod inline_ids;
pub mod laws;
mod lists;
mod lookup;
mod majority;
mod member_set;
mod merging;
mod overlap;
mod tolerance;
mod tree_ids;
mod unions;
mod vote_source;
mod voting;

pub use acknowledgement::AckSource;
pub use ascii_text::NoMemory;
pub use charts::{chart, joint_chart};
pub use commit::{committed, committed_of, joint_committed, joint_committed_of};
pub use difference::symdiff;
pub use inline_ids::InlineIds;
pub use lists::{IdList, add_ids, list_of};
pub use lookup::contains_from;
pub use majority::{is_quorum, quorum};
pub use member_set::MemberSet;
pub use merging::{IdEdit, Item, ItemEdit, merge};
pub use overlap::common_member;
pub use tolerance::{commits_without, may_be_down};
pub use tree_ids::TreeIds;
pub use unions::union;
pub use vote_source::VoteSource;
pub use voting::{Tally, VoteResult, joint_result, joint_vote, vote};
