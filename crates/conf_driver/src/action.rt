//! What to do next, and why to wait.

use conf_change::Step;
use quorum_sets::InlineIds;
use thiserror::Error;

/// What to do next.
#[derive(Drop)]
pub enum Action {
    /// Start these servers, each with an empty log.
    Start(InlineIds),
    /// Stop these servers for good: their ids do not come back.
    Stop(InlineIds),
    /// Make this member the leader.
    Transfer(u64),
    /// Propose this step, which raft takes as one proposal.
    Propose(Step),
    /// Nothing: wait for these ids.
    Wait(WaitReason, InlineIds),
    /// Nothing: the target is not reached as things are, for these ids.
    Stuck(StuckReason, InlineIds),
    /// Nothing: the target is reached.
    Done,
}

/// Why to wait for ids.
#[derive(Clone, Copy, Debug, PartialEq, Eq, Error)]
pub enum WaitReason {
    /// There is no leader.
    #[error("there is no leader")]
    NoLeader,
    /// A change is in the log and not applied.
    #[error("a change is not applied yet")]
    Pending,
    /// They are named as down, and one is heard from or leads.
    #[error("named as down and heard from")]
    Heard,
    /// They are neither heard from nor named as down.
    #[error("not heard from")]
    Unheard,
    /// They are heard from, and have not caught up.
    #[error("not caught up")]
    Behind,
    /// Raft leaves the joint configuration by itself.
    #[error("the joint configuration is left automatically")]
    Leaving,
}

/// Why the target is not reached.
#[derive(Clone, Copy, Debug, PartialEq, Eq, Error)]
pub enum StuckReason {
    /// The voters that are not down are not a quorum.
    #[error("the voters that are not down are not a quorum")]
    QuorumLost,
    /// With these ids down, a configuration on the way commits nothing.
    #[error("with these ids down, a configuration on the way commits nothing")]
    Stalls,
    /// The target adds ids that were stopped for good.
    #[error("an id that was stopped for good is not used again")]
    Reused,
}
