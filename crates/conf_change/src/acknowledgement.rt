//! Acknowledgements of the members. A member acknowledges an index once its log has every entry up to it.
use crate::tracker::Tracker;
use quorum_sets::{AckSource, MemberSet};
use thiserror::Error;

/// Why an acknowledgement is refused (own).
#[derive(Clone, Copy, Debug, PartialEq, Eq, Error)]
pub enum AckFault {
    /// The id is not a member.
    #[error("not a member")]
    NotMember,
    /// The index is 2^64-1, so there is no next index to send.
    #[error("index too large")]
    IndexTooLarge,
}

/// Each member has acknowledged its match index; any other id has acknowledged nothing. So the committed index of a
/// configuration follows from the progress of its members, as in etcd's `ProgressTracker.Committed`.
impl<S: MemberSet> AckSource for Tracker<S> {
    ghost use Rattle.conf_change.specs.Acknowledgement.{matches};

    ghost acks = { matches };

    fn acked(&self, id: u64) -> Option<u64> {
        Some(self.progress(id)?.matched)
    }
}
