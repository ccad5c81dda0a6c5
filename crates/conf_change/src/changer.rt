//! The changer, which changes a configuration by steps (etcd's `confchange.Changer`).
//!
//! A simple step changes at most one voter, so each majority before it shares a member with each majority after it. Any
//! other change of the voters goes through a joint configuration: the old voters become the outgoing voters, the
//! changes are made to the incoming ones, and until the joint configuration is left a decision needs a majority of
//! both.
//!
//! ```text
//! (1 2 3)        --enter-joint v4 r1-->  (2 3 4)&&(1 2 3)  --leave-joint-->  (2 3 4)
//! ```
//!
//! A step is accepted or refused as a whole: a refused step changes nothing.
ghost use Rattle.std.specs.Prelude.{◌≡◌, ◌-◌, ◌^◌, ◌↔◌, [], ◌∷◌, true, false, Some, Err, IfOk, OnErr};
ghost use Rattle.std.specs.FinMap as finite;
ghost use Rattle.conf_change.specs.Configuration.{is_member};
ghost use Rattle.conf_change.specs.Acknowledgement.{acknowledged, ack_answer, changer_with_progress};
ghost use Rattle.conf_change.specs.declared.floor.Floor.TheVariants.{One};
ghost use Rattle.conf_change.specs.declared.progress.Progress.{Progress};
ghost use Rattle.conf_change.specs.declared.step.Step.TheVariants.{Simple, EnterJoint, LeaveJoint};
ghost use Rattle.conf_change.specs.Transition.{step_of, step_for};
ghost use Rattle.conf_change.specs.Changer.{IsSound, GivesNext, Makes, left_in, new_changer, changer_of, with_last_index};

use crate::acknowledgement::AckFault;
use crate::change::Change;
use crate::config::Config;
use crate::floor::Floor;
use crate::progress::Progress;
use crate::refused::Refused;
use crate::step::{Step, StepKind};
use crate::tracker::Tracker;
use crate::transition::{Transition, taken};
use quorum_sets::{MemberSet, NoMemory};
use std::alloc::Global;
use std::marker::Model;

/// A configuration with the progress of its members, and the last index of the log, at which new members begin (etcd's
/// `confchange.Changer`). A step that fails leaves it unchanged, even when memory runs out.
#[derive(Drop)]
pub struct Changer<S: MemberSet> {
    tracker: Tracker<S>,
    last_index: u64,
}

impl<S: MemberSet> Model for Changer<S> {
    ghost use Rattle.conf_change.specs.ChangerState.{ChangerState, changer_code};
    ghost use Rattle.conf_change.specs.Changer.{IsSound};

    ghost Value = { ChangerState };

    ghost coded = { changer_code };

    ghost view = { λ c. record { tracker = c.tracker; last_index = c.last_index } };

    ghost invariant = { λ c. IsSound c.tracker };
}

impl<S: MemberSet> Changer<S> {
    /// A changer with an empty configuration and floor one. The last index is that of the log, 0 if the log is empty.
    pub fn new(alloc: Global, last_index: u64) -> Changer<S>
        ensures new { result ≡ new_changer One last_index }
        ensures sound { IsSound result.tracker }
    {
        Changer::new_with_floor(alloc, last_index, Floor::One)
    }

    /// A changer with an empty configuration and this floor, which no step changes.
    pub fn new_with_floor(alloc: Global, last_index: u64, floor: Floor) -> Changer<S>
        ensures new { result ≡ new_changer floor last_index }
        ensures sound { IsSound result.tracker }
    {
        Changer::begin(Tracker::new(alloc, floor), last_index)
    }

    // The changer of a tracker.
    #[inline(always)]
    pub(crate) fn begin(tracker: Tracker<S>, last_index: u64) -> Changer<S>
        requires { IsSound tracker }
        ensures begun { result ≡ changer_of tracker last_index }
        ensures sound { IsSound result.tracker }
    {
        Changer {
            tracker,
            last_index,
        }
    }

    /// The configuration and the progress of its members.
    pub fn tracker(&self) -> &Tracker<S>
        ensures tracker { result.now ≡ self.now.tracker }
        ensures sound { IsSound self.now.tracker }
    {
        &self.tracker
    }

    /// The last index of the log, 0 if it is empty.
    pub fn last_index(&self) -> u64
        ensures { result ≡ self.now.last_index }
    {
        self.last_index
    }

    /// The smallest initial next index.
    pub fn floor(&self) -> Floor
        ensures { result ≡ self.now.tracker.floor }
    {
        self.tracker.floor()
    }

    /// Sets the last index of the log, for example after entries are appended. Members that join later begin there; the
    /// progress of the others does not change.
    pub fn set_last_index(&mut self, last_index: u64)
        ensures set { self.new ≡ with_last_index self.old last_index }
        ensures sound { IsSound self.new.tracker }
    {
        self.last_index = last_index;
    }

    /// A copy.
    pub fn try_clone(&self) -> Result<Changer<S>, NoMemory>
        ensures same { IfOk result (λ copy. copy ≡ self.now) }
        ensures sound { IfOk result (λ copy. IsSound copy.tracker) }
    {
        Ok(Changer {
            tracker: self.tracker.try_clone()?,
            ..*self
        })
    }

    /// Takes the configuration out, and leaves an empty one.
    #[inline(always)]
    pub fn take_config(&mut self) -> Config<S>
        ensures config { result ≡ self.old.tracker.config }
        ensures left { self.new ≡ new_changer self.old.tracker.floor self.old.last_index }
        ensures sound { IsSound self.old.tracker }
        ensures sound_after { IsSound self.new.tracker }
    {
        self.tracker.take_config()
    }

    // A changer with an empty configuration and the same floor and last index.
    fn emptied(&self) -> Changer<S>
        ensures new { result ≡ new_changer self.now.tracker.floor self.now.last_index }
        ensures sound { IsSound result.tracker }
    {
        Changer::begin(self.tracker.emptied(), self.last_index)
    }

    /// Overwrites `self` with the changer that a step from `before` leads to. `before` does not change, so a caller can
    /// go back to it (own). Leaving a joint configuration ignores `changes`.
    ///
    /// Refused as [`Changer::step`] is; the configuration of `self` is then empty.
    pub fn become_next(
        &mut self,
        before: &Changer<S>,
        kind: StepKind,
        changes: &[Change],
    ) -> Result<(), Refused>
        ensures next { GivesNext before.now (step_of kind changes.now) (left_in result self.new) }
        ensures refused { OnErr result
            (self.new ≡ new_changer before.now.tracker.floor before.now.last_index) }
        ensures sound { IsSound self.new.tracker }
    {
        let next_index = before.tracker.floor().fresh_next(before.last_index);
        match self
            .tracker
            .become_next(&before.tracker, kind, changes, next_index)
        {
            Ok(()) => {
                self.last_index = before.last_index;
                Ok(())
            }
            Err(refused) => {
                *self = before.emptied();
                Err(refused)
            }
        }
    }

    /// As [`Changer::simple`], for one change.
    pub fn simple_one(&mut self, change: Change) -> Result<(), Refused>
        ensures { Makes self.old (Simple (change ∷ [])) result self.new }
    {
        self.simple(&[change])
    }

    /// Makes changes that alter at most one voter, and any number of learners (etcd's `Simple`; Ongaro's dissertation,
    /// section 4.1). The voters that differ before and after are counted, not the changes: from (1 2 3), `v4 r4` alters
    /// none, and `v4 r1` two.
    ///
    /// Refused with SimpleInJoint in a joint configuration, else with RemovedAllVoters if no voter is left, else with
    /// MoreThanOneVoter if more than one voter differs.
    pub fn simple(&mut self, changes: &[Change]) -> Result<(), Refused>
        ensures { Makes self.old (Simple changes.now) result self.new }
    {
        self.make(StepKind::Simple, changes)
    }

    /// Enters a joint configuration: the outgoing voters become a copy of the incoming ones, and the changes are made
    /// to the incoming ones and to the learners (etcd's `EnterJoint`; Ongaro's dissertation, section 4.3). With
    /// auto-leave, etcd's leader proposes to leave the joint configuration once the change is applied; otherwise the
    /// application has to.
    ///
    /// Refused with AlreadyJoint in a joint configuration, else with ZeroVoterJoint if there is no voter, else with
    /// RemovedAllVoters if no incoming voter is left.
    pub fn enter_joint(&mut self, auto_leave: bool, changes: &[Change]) -> Result<(), Refused>
        ensures { Makes self.old (EnterJoint auto_leave changes.now) result self.new }
    {
        self.make(StepKind::Enter(auto_leave), changes)
    }

    /// Leaves a joint configuration: the outgoing voters are removed, the next learners become learners, and auto-leave
    /// is off (etcd's `LeaveJoint`; Ongaro's dissertation, section 4.3). A member that is then neither an incoming
    /// voter nor a learner is removed with its progress.
    ///
    /// Refused with NotJoint in a configuration that is not joint.
    pub fn leave_joint(&mut self) -> Result<(), Refused>
        ensures { Makes self.old LeaveJoint result self.new }
    {
        self.make(StepKind::Leave, &[])
    }

    /// Takes a step: a simple one, entering a joint configuration, or leaving it. Refused as [`Changer::simple`],
    /// [`Changer::enter_joint`] and [`Changer::leave_joint`] are.
    pub fn step(&mut self, step: &Step) -> Result<(), Refused>
        ensures { Makes self.old step.now result self.new }
    {
        self.make(step.kind(), step.changes())
    }

    /// Takes the step that etcd takes for a list of changes (see [`taken`]), as its raft does when the entry of a
    /// `raftpb.ConfChangeV2` is applied.
    pub fn change(&mut self, transition: Transition, changes: &[Change]) -> Result<(), Refused>
        ensures { Makes self.old (step_for transition changes.now) result self.new }
    {
        self.make(taken(transition, changes), changes)
    }

    // Takes the step of this kind.
    fn make(&mut self, kind: StepKind, changes: &[Change]) -> Result<(), Refused>
        ensures { Makes self.old (step_of kind changes.now) result self.new }
    {
        let mut next = self.emptied();
        next.become_next(self, kind, changes)?;
        *self = next;
        Ok(())
    }

    /// Records that a member acknowledged an index, and returns its progress: an index above match becomes match, and
    /// next is then at least one more; any other index changes nothing (etcd's `MaybeUpdate` of `tracker.Progress`).
    /// From match 3 and next 4, an acknowledgement of 7 leads to match 7 and next 8; one of 2 is late and changes
    /// nothing.
    ///
    /// Refused with NotMember if the id is not a member, else with IndexTooLarge if the index is 2^64-1.
    pub fn ack(&mut self, id: u64, index: u64) -> Result<Progress, AckFault>
        ensures answer { result ≡ ack_answer self.old.tracker id index }
        ensures taken { IfOk result (λ p. self.new ≡ changer_with_progress self.old id p) }
        ensures unchanged { OnErr result (self.new ≡ self.old) }
        ensures sound { IsSound self.new.tracker }
    {
        let progress = self.ack_answer(id, index)?;
        self.tracker.set_progress(id, progress);
        Ok(progress)
    }

    /// The result that [`Changer::ack`] would return, without recording it.
    pub fn ack_answer(&self, id: u64, index: u64) -> Result<Progress, AckFault>
        ensures answer { result ≡ ack_answer self.now.tracker id index }
        ensures acknowledged { IfOk result
            (λ p. (was : Progress) × (finite.get self.now.tracker.progress id ≡ Some was)
            × (p ≡ acknowledged index was)) }
        ensures not_member { (result ≡ Err AckFault.NotMember)
            ↔ (is_member self.now.tracker.config id ≡ false) }
        ensures too_large { (result ≡ Err AckFault.IndexTooLarge)
            ↔ ((is_member self.now.tracker.config id ≡ true) × (index ≡ 2 ^ 64 - 1)) }
    {
        let Some(known) = self.tracker.progress(id) else {
            return Err(AckFault::NotMember);
        };
        if index == u64::MAX {
            return Err(AckFault::IndexTooLarge);
        }
        Ok(known.acknowledged(index))
    }
}
