//! The tracker: a configuration, and the progress of its members. A step changes both. Here the last index is 9, and 1
//! is removed and added again, so it begins anew:
//!
//! ```text
//!              (1 2)                1: match=5 next=6   2: match=4 next=6
//! --r1 v1 l3-> (1 2) learners=(3)   1: match=0 next=9   2: match=4 next=6   3: match=0 next=9 learner
//! ```
ghost use Rattle.std.specs.Prelude.{◌≡◌, ◌≢◌, true, map, length, slice_get, IfOk, IfErr, OnOk, Err, is_some};
ghost use Rattle.std.specs.FinMap as finite;
ghost use Rattle.quorum_sets.specs.AscendingLists.{IsAscending};
ghost use Rattle.conf_change.specs.Outcome.{outcome};
ghost use Rattle.conf_change.specs.Edits.{HasEditedEntries};
ghost use Rattle.conf_change.specs.TrackerEdits.{KeepsMembers, Moves};
ghost use Rattle.conf_change.specs.Transition.{step_of};
ghost use Rattle.conf_change.specs.Changer.{IsSound, empty_tracker, tracker_of};
ghost use Rattle.conf_change.specs.Acknowledgement.{with_progress};

use crate::change::Change;
use crate::config::Config;
use crate::configuration_step::become_next;
use crate::edit_list::Edit;
use crate::floor::Floor;
use crate::members::{Members, progress_of, set_progress_of};
use crate::progress::Progress;
use crate::refused::Refused;
use crate::step::StepKind;
use quorum_sets::{MemberSet, NoMemory, merge};
use smallvec::SmallVec;
use std::alloc::Global;
use std::marker::Model;
use std::mem::replace;

/// A configuration and the progress of its members (etcd's `tracker.ProgressTracker`), and the smallest initial next
/// index. The members are the incoming and outgoing voters and the learners; no other id has progress.
#[derive(Drop)]
pub struct Tracker<S: MemberSet> {
    config: Config<S>,
    members: Members,
    floor: Floor,
    // The allocator of its sets.
    alloc: Global,
}

impl<S: MemberSet> Model for Tracker<S> {
    ghost use Rattle.std.specs.Prelude.{map};
    ghost use Rattle.std.specs.FinMap as finite;
    ghost use Rattle.quorum_sets.specs.AscendingLists.{IsAscending};
    ghost use Rattle.conf_change.specs.TrackerState.{TrackerState, tracker_code};

    ghost Value = { TrackerState };

    ghost coded = { tracker_code };

    ghost view = { λ t. record {
      config = t.config;
      progress = finite.from_entries t.members.items;
      floor = t.floor;
    } };

    ghost invariant = { λ t. IsAscending (map (λ m. m.0) t.members.items) };
}

impl<S: MemberSet> Tracker<S> {
    // A tracker with an empty configuration.
    #[inline(always)]
    pub(crate) fn new(alloc: Global, floor: Floor) -> Tracker<S>
        ensures { result ≡ empty_tracker floor }
    {
        Tracker {
            config: Config::empty(alloc),
            members: SmallVec::new(alloc),
            floor,
            alloc,
        }
    }

    // The tracker of a configuration and its members' progress.
    #[inline(always)]
    pub(crate) fn begin(
        alloc: Global,
        floor: Floor,
        config: Config<S>,
        members: Members,
    ) -> Tracker<S>
        requires { IsAscending (map (λ m. m.0) members.items) }
        ensures { result ≡ tracker_of floor config (finite.from_entries members.items) }
    {
        Tracker {
            config,
            members,
            floor,
            alloc,
        }
    }

    /// The configuration.
    pub fn config(&self) -> &Config<S>
        ensures { result.now ≡ self.now.config }
    {
        &self.config
    }

    // The smallest initial next index.
    pub(crate) fn floor(&self) -> Floor
        ensures { result ≡ self.now.floor }
    {
        self.floor
    }

    // Takes the configuration out, and leaves an empty one.
    #[inline(always)]
    pub(crate) fn take_config(&mut self) -> Config<S>
        ensures config { result ≡ self.old.config }
        ensures left { self.new ≡ empty_tracker self.old.floor }
    {
        self.members.clear();
        replace(&mut self.config, Config::empty(self.alloc))
    }

    /// The progress of the id, or `None` if it is not a member.
    pub fn progress(&self, id: u64) -> Option<Progress>
        ensures { result ≡ finite.get self.now.progress id }
    {
        progress_of(self.members.as_slice(), id)
    }

    /// The number of members.
    pub fn member_count(&self) -> usize
        ensures { result ≡ length (finite.entries self.now.progress) }
    {
        self.members.len()
    }

    /// The member at a position, counted from 0 in ascending order of the ids, with its progress, or `None` past the
    /// end.
    pub fn member_at(&self, position: usize) -> Option<(u64, Progress)>
        ensures { result ≡ slice_get (finite.entries self.now.progress) position }
    {
        self.members.as_slice().get(position).copied()
    }

    // A copy.
    pub(crate) fn try_clone(&self) -> Result<Tracker<S>, NoMemory>
        ensures { IfOk result (λ copy. copy ≡ self.now) }
    {
        let config = self.config.try_clone()?;
        let members = SmallVec::from_slice(self.alloc, self.members.as_slice())?;
        Ok(Tracker {
            config,
            members,
            ..*self
        })
    }

    // Sets the progress of a member.
    pub(crate) fn set_progress(&mut self, id: u64, progress: Progress)
        requires { is_some (finite.get self.old.progress id) ≡ true }
        ensures { self.new ≡ with_progress self.old id progress }
    {
        set_progress_of(self.members.as_mut_slice(), id, progress);
    }

    // A tracker with an empty configuration and the same floor.
    #[inline(always)]
    pub(crate) fn emptied(&self) -> Tracker<S>
        ensures { result ≡ empty_tracker self.now.floor }
    {
        Tracker::new(self.alloc, self.floor)
    }

    // Overwrites `self` with the result of a step from `before`, in which new members get this initial next index. If
    // the step is refused, the contents are unspecified.
    pub(crate) fn become_next(
        &mut self,
        before: &Tracker<S>,
        kind: StepKind,
        changes: &[Change],
        next_index: u64,
    ) -> Result<(), Refused>
        requires { IsSound before.now }
        ensures accepted { OnOk result
            (Moves next_index (step_of kind changes.now) before.now self.new) }
        ensures refused { IfErr result (λ why. why ≢ Refused.NoMemory
            → outcome before.now.config (step_of kind changes.now) ≡ Err why) }
    {
        let mut edits = SmallVec::new(self.alloc);
        become_next(&mut self.config, &mut edits, &before.config, kind, changes)?;
        self.floor = before.floor;
        let others = before.members.as_slice();
        match kind {
            StepKind::Leave => keep_members(&mut self.members, &self.config, others)?,
            StepKind::Simple | StepKind::Enter(_) => {
                edit_members(&mut self.members, others, edits.as_slice(), next_index)?;
            }
        }
        Ok(())
    }
}

// Overwrites the members with `others` after the edits.
fn edit_members(
    members: &mut Members,
    others: &[(u64, Progress)],
    edits: &[(u64, Edit)],
    next_index: u64,
) -> Result<(), NoMemory>
    requires others { IsAscending (map (λ m. m.0) others.now) }
    requires edits { IsAscending (map (λ e. e.0) edits.now) }
    ensures ascends { IsAscending (map (λ m. m.0) members.new.items) }
    ensures edited { OnOk result
        (HasEditedEntries next_index edits.now (finite.from_entries others.now)
        (finite.from_entries members.new.items)) }
{
    members.clear();
    members.reserve(others.len().saturating_add(edits.len()))?;
    merge(members, others, edits, &next_index)
}

// Overwrites the members with those of `others` that the configuration has. They keep their progress, and are marked as
// learners or not: a next learner is marked when it becomes a learner.
fn keep_members<S: MemberSet>(
    members: &mut Members,
    config: &Config<S>,
    others: &[(u64, Progress)],
) -> Result<(), NoMemory>
    requires { IsAscending (map (λ m. m.0) others.now) }
    ensures ascends { IsAscending (map (λ m. m.0) members.new.items) }
    ensures kept { OnOk result
        (KeepsMembers config.now (finite.from_entries others.now)
        (finite.from_entries members.new.items)) }
{
    members.clear();
    members.reserve(others.len())?;
    for (id, old) in others {
        if config.is_member(*id) {
            let learner = config.learners.contains(*id);
            members.push_reserved((*id, Progress { learner, ..*old }));
        }
    }
    Ok(())
}
