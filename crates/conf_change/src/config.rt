//! Configurations, and the invariants of a valid one.
//!
//! ```text
//! (1 2) learners=(3)                  1 and 2 vote, and 3 learns
//! (1 2)&&(1 3) learners_next=(3)      joint: 3 still votes, and is to become a learner
//! ```
ghost use Rattle.std.specs.Prelude.{◌≡◌, ◌↔◌, List, map, true, IfOk, OnOk};
ghost use Rattle.quorum_sets.specs.AscendingLists.{IsAscending};
ghost use Rattle.conf_change.specs.Configuration.{empty_configuration, is_joint, has_voter, is_same, is_same_set};
ghost use Rattle.conf_change.specs.Change.{result_of};
ghost use Rattle.conf_change.specs.Edits.{AreEdits, with_voters_out};
ghost use Rattle.conf_change.specs.Outcome.{after_leave};
ghost use Rattle.conf_change.specs.declared.change.Change.{Change};

use crate::edit_list::{Edit, Role};
use quorum_sets::{MemberSet, NoMemory, union};
use std::alloc::Global;
use std::marker::Model;
use thiserror::Error;

/// A configuration (etcd's `tracker.Config`). Ids are 1 to 2^64-1.
#[derive(Drop)]
pub struct Config<S: MemberSet> {
    /// The voters, or in a joint configuration the incoming ones.
    pub incoming: S,
    /// The outgoing voters: the voters before the joint configuration was entered. A configuration is joint if it has
    /// any.
    pub outgoing: S,
    /// The learners: members that get the log and do not vote.
    pub learners: S,
    /// The outgoing voters that become learners when the joint configuration is left. Until then they are not learners,
    /// since no member is a voter and a learner at once.
    pub learners_next: S,
    /// Whether the joint configuration is left automatically.
    pub auto_leave: bool,
}

impl<S: MemberSet> Model for Config<S> {
    ghost use Rattle.conf_change.specs.Configuration.{Configuration};
    ghost use Rattle.conf_change.specs.ConfigurationCode.{configuration_code};

    ghost Value = { Configuration };

    ghost coded = { configuration_code };

    ghost view = { λ c. record {
      incoming = S.ids c.incoming;
      outgoing = S.ids c.outgoing;
      learners = S.ids c.learners;
      learners_next = S.ids c.learners_next;
      auto_leave = c.auto_leave;
    } };
}

/// The invariants of a valid configuration, in the order in which they are checked (etcd's `checkInvariants`; `ZeroId`
/// and `NextAndIncoming` are own). As an error, an invariant is the one that is broken.
#[derive(Clone, Copy, Debug, PartialEq, Eq, Error)]
pub enum Invariant {
    /// No set has the id 0, which is etcd's `raft.None`: the id of no member.
    #[error("a set holds the id 0")]
    ZeroId,
    /// A next learner is an outgoing voter. Broken by `(1)&&(1 2) learners_next=(3)`.
    #[error("a next learner is not an outgoing voter")]
    NextNotOutgoing,
    /// A next learner is not an incoming voter. Broken by `(1 2)&&(1 2) learners_next=(2)`.
    #[error("a next learner is an incoming voter")]
    NextAndIncoming,
    /// A learner is not a voter. Broken by `(1 2) learners=(2)`.
    #[error("a learner is a voter")]
    LearnerAndVoter,
    /// Only a joint configuration has next learners. Where this is broken, so is `NextNotOutgoing`, and that is checked
    /// first.
    #[error("next learners without outgoing voters")]
    NotJointButNext,
    /// Only a joint configuration has auto-leave.
    #[error("auto-leave without outgoing voters")]
    NotJointButAutoLeave,
}

impl<S: MemberSet> Config<S> {
    /// The empty configuration.
    #[inline(always)]
    pub fn empty(alloc: Global) -> Config<S>
        ensures { result ≡ empty_configuration }
    {
        Config {
            incoming: S::empty(alloc),
            outgoing: S::empty(alloc),
            learners: S::empty(alloc),
            learners_next: S::empty(alloc),
            auto_leave: false,
        }
    }

    /// A copy.
    pub fn try_clone(&self) -> Result<Config<S>, NoMemory>
        ensures { IfOk result (λ copy. copy ≡ self.now) }
    {
        Ok(Config {
            incoming: self.incoming.try_clone()?,
            outgoing: self.outgoing.try_clone()?,
            learners: self.learners.try_clone()?,
            learners_next: self.learners_next.try_clone()?,
            auto_leave: self.auto_leave,
        })
    }

    /// Whether the configuration has outgoing voters.
    pub fn is_joint(&self) -> bool
        ensures { result ≡ is_joint self.now }
    {
        self.outgoing.len() != 0
    }

    // Whether the configuration has an incoming voter.
    pub(crate) fn has_voter(&self) -> bool
        ensures { result ≡ has_voter self.now }
    {
        self.incoming.len() != 0
    }

    // The configuration after leaving a joint one: the outgoing voters are removed, and the next learners become
    // learners.
    pub(crate) fn after_leave(&self) -> Result<Config<S>, NoMemory>
        ensures { IfOk result (λ config. config ≡ after_leave self.now) }
    {
        let alloc = self.incoming.allocator();
        Ok(Config {
            incoming: self.incoming.try_clone()?,
            outgoing: S::empty(alloc),
            learners: union(&self.learners, &self.learners_next)?,
            learners_next: S::empty(alloc),
            auto_leave: false,
        })
    }

    // Overwrites `self` with the configuration after the edits, but with these outgoing voters and this flag. On
    // `NoMemory` its contents are unspecified.
    pub(crate) fn become_edited(
        &mut self,
        before: &Config<S>,
        outgoing: &S,
        auto_leave: bool,
        edits: &[(u64, Edit)],
    ) -> Result<(), NoMemory>
        requires { IsAscending (map (λ e. e.0) edits.now) }
        ensures { OnOk result
            ((changes : List Change) → AreEdits changes (S.ids outgoing.now) edits.now
            → self.new ≡ result_of
            (with_voters_out before.now (S.ids outgoing.now) auto_leave) changes) }
    {
        self.outgoing.try_clone_from(outgoing)?;
        self.auto_leave = auto_leave;
        self.incoming
            .try_clone_edited(&before.incoming, edits, &Role::Incoming)?;
        self.learners
            .try_clone_edited(&before.learners, edits, &Role::Learner)?;
        self.learners_next
            .try_clone_edited(&before.learners_next, edits, &Role::Next)?;
        Ok(())
    }

    /// Whether two configurations are the same: their four sets and their flags agree.
    pub fn same(&self, other: &Config<S>) -> bool
        ensures same { result ≡ is_same self.now other.now }
        ensures equal { (result ≡ true) ↔ (self.now ≡ other.now) }
    {
        has_same_ids(&self.incoming, &other.incoming)
            && has_same_ids(&self.outgoing, &other.outgoing)
            && has_same_ids(&self.learners, &other.learners)
            && has_same_ids(&self.learners_next, &other.learners_next)
            && self.auto_leave == other.auto_leave
    }
}

/// Whether two sets have the same ids.
pub fn has_same_ids<S: MemberSet>(a: &S, b: &S) -> bool
    ensures { result ≡ is_same_set (S.ids a.now) (S.ids b.now) }
{
    (0..a.len().max(b.len())).all(|position| a.at(position) == b.at(position))
}
