//! Configurations of a Raft cluster and how they change: etcd's package `confchange`, with the progress of each member.
//!
//! A configuration names the voters of a cluster and its learners, which get the log and do not vote. A simple change
//! adds or removes at most one voter. It is safe, since each majority before it shares a member with each majority
//! after it. Every other change of the voters goes through a joint configuration, in which the incoming and the
//! outgoing voters both have to agree (sections 4.1 and 4.3 of Ongaro's dissertation):
//!
//! ```text
//! (1 2 3)        --enter-joint v4 r1-->  (2 3 4)&&(1 2 3)  --leave-joint-->  (2 3 4)
//! ```
//!
//! An outgoing voter that is to become a learner keeps voting until the joint configuration is left. Until then it is a
//! next learner:
//!
//! ```text
//! (1 2 3)                                --enter-joint l3-->
//! (1 2)&&(1 2 3) learners_next=(3)       --leave-joint-->
//! (1 2) learners=(3)
//! ```
//!
//! A list of changes is written as in etcd's test scripts: `v1` makes 1 a voter, `l1` a learner, `r1` removes it and
//! `u1` changes nothing. Of several changes of one id, the last one that is not an update decides its roles. A
//! [`Changer`] has a configuration with the progress of its members. It applies a list of changes, or refuses it with a
//! reason and alters nothing:
//!
//! ```text
//! let mut changer: Changer<InlineIds> = Changer::new(alloc, 10);
//! changer.simple(&read_changes(alloc, b"v1 l4")?)?;   // voters=(1) learners=(4)
//! changer.simple(&read_changes(alloc, b"v2 v3")?)?;   // refused: MoreThanOneVoter
//! ```
//!
//! A saved configuration, etcd's ConfState, is restored by [`Changer::restore`], without the steps that led to it:
//!
//! ```text
//! Voters:[2 3 4] VotersOutgoing:[1 2 3] Learners:[] LearnersNext:[] AutoLeave:false   is   (2 3 4)&&(1 2 3)
//! ```
#![tactic(auto)]

pub mod acknowledgement;
mod append;
pub mod change;
pub mod change_list;
pub mod changer;
pub mod conf_state_line;
pub mod config;
pub mod configuration_line;
pub mod configuration_step;
mod edit_list;
mod find_id;
pub mod floor;
pub mod laws;
mod members;
mod membership;
pub mod printed_config;
pub mod progress;
pub mod refused;
pub mod restore;
pub mod saved_configuration;
pub mod step;
pub mod text;
pub mod tracker;
pub mod transition;
pub mod violation;

pub use acknowledgement::AckFault;
pub use change::{Change, Changes, Kind};
pub use change_list::{TokenFault, read_change, read_changes, read_changes_into};
pub use changer::Changer;
pub use conf_state_line::{read_conf_state, write_conf_state};
pub use config::{Config, Invariant, has_same_ids};
pub use configuration_line::{
    ConfigurationFault, read_configuration, valid_configuration, valid_lists,
};
pub use configuration_step::{next_config, next_config_into};
pub use floor::Floor;
pub use printed_config::read_config;
pub use progress::Progress;
pub use quorum_sets::union;
pub use refused::Refused;
pub use restore::{RestoreFault, described, described_lists, has_voter_or_is_empty};
pub use saved_configuration::{ConfState, ConfStateFault, SavedLists, conf_state};
pub use step::{Step, StepKind};
pub use text::{write_config, write_progress, write_refused, write_token_fault};
pub use tracker::Tracker;
pub use transition::{Transition, taken};
pub use violation::{Violation, check, first_violation};
