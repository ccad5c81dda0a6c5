//! Saved configurations, which etcd calls ConfState. A snapshot carries the configuration as of its index.
ghost use Rattle.std.specs.Prelude.{◌≡◌, IfOk};
ghost use Rattle.conf_change.specs.ConfState.{Describes, lists_of};

use crate::config::Config;
use quorum_sets::{MemberSet, NoMemory, list_of};
use std::alloc::Global;
use std::marker::Model;
use thiserror::Error;

/// A saved configuration (etcd's `raftpb.ConfState`): its sets as lists in any order, and its flag.
#[derive(Debug, Drop)]
pub struct ConfState {
    /// The voters, or in a joint configuration the incoming ones.
    pub voters: Vec<u64>,
    /// The outgoing voters, none if the configuration is not joint.
    pub voters_outgoing: Vec<u64>,
    /// The learners.
    pub learners: Vec<u64>,
    /// The outgoing voters that become learners when the joint configuration is left.
    pub learners_next: Vec<u64>,
    /// Whether the joint configuration is left automatically.
    pub auto_leave: bool,
}

impl Model for ConfState {
    ghost use Rattle.conf_change.specs.ConfState.{ConfStateLists};

    ghost Value = { ConfStateLists };

    ghost view = { λ s. record {
      voters = s.voters.items;
      voters_outgoing = s.voters_outgoing.items;
      learners = s.learners.items;
      learners_next = s.learners_next.items;
      auto_leave = s.auto_leave;
    } };
}

impl ConfState {
    /// Its lists, borrowed.
    pub fn lists(&self) -> SavedLists<'_>
        ensures { result ≡ self.now }
    {
        SavedLists {
            voters: self.voters.as_slice(),
            voters_outgoing: self.voters_outgoing.as_slice(),
            learners: self.learners.as_slice(),
            learners_next: self.learners_next.as_slice(),
            auto_leave: self.auto_leave,
        }
    }
}

/// A [`ConfState`] whose lists are borrowed, for a program that keeps them itself.
#[derive(Drop)]
pub struct SavedLists<'a> {
    /// The voters, or in a joint configuration the incoming ones.
    pub voters: &'a [u64],
    /// The outgoing voters, none if the configuration is not joint.
    pub voters_outgoing: &'a [u64],
    /// The learners.
    pub learners: &'a [u64],
    /// The outgoing voters that become learners when the joint configuration is left.
    pub learners_next: &'a [u64],
    /// Whether the joint configuration is left automatically.
    pub auto_leave: bool,
}

impl<'a> Model for SavedLists<'a> {
    ghost use Rattle.conf_change.specs.ConfState.{ConfStateLists};

    ghost Value = { ConfStateLists };

    ghost view = { λ s. record {
      voters = s.voters.now;
      voters_outgoing = s.voters_outgoing.now;
      learners = s.learners.now;
      learners_next = s.learners_next.now;
      auto_leave = s.auto_leave;
    } };
}

/// Why a text is not a ConfState line.
#[derive(Clone, Copy, Debug, PartialEq, Eq, Error)]
pub enum ConfStateFault {
    /// It does not have the form of a ConfState line.
    #[error("bad conf state")]
    BadConfState,
    /// An allocation failed.
    #[error("out of memory")]
    NoMemory,
}

/// The ConfState of a configuration, with its lists in ascending order (etcd's `ProgressTracker.ConfState`). It has no
/// progress.
pub fn conf_state<S: MemberSet>(alloc: Global, config: &Config<S>) -> Result<ConfState, NoMemory>
    ensures ascending { IfOk result (λ state. state ≡ lists_of config.now) }
    ensures describes { IfOk result (λ state. Describes state config.now) }
{
    Ok(ConfState {
        voters: list_of(alloc, &config.incoming)?,
        voters_outgoing: list_of(alloc, &config.outgoing)?,
        learners: list_of(alloc, &config.learners)?,
        learners_next: list_of(alloc, &config.learners_next)?,
        auto_leave: config.auto_leave,
    })
}
