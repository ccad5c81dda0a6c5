//! What a session keeps from one directive to the next: all but its buffers.
ghost use Rattle.std.specs.Prelude.{◌≡◌, ◌≢◌, ◌↔◌, ◌≤◌, ◌-◌, ◌∷◌, Some, Ok, Err, IfOk, drop, option_copied, slice_get, take};
ghost use Rattle.std.specs.VecDeque.{deque_capacity};
ghost use Rattle.conf_change.specs.Configuration.{Configuration};
ghost use Rattle.conf_plan.specs.Best.{IsBest};
ghost use Rattle.conf_session.specs.SessionState.{IsSession, new_session, current, after_directive};
ghost use Rattle.conf_session.specs.Reply.{session_change};
ghost use Rattle.conf_session.specs.Undo.{undo_plan_of};
ghost use Rattle.conf_session.specs.declared.undo_fault.UndoFault.{UndoFault as WhyNot};

use crate::laws::kept_lead_to_now;
use crate::session_ids::SessionIds;
use crate::session_update::SessionUpdate;
use crate::undo_fault::UndoFault;
use conf_change::{Changer, Config, Floor};
use conf_plan::{Plan, PlanFault, plan};
use quorum_sets::NoMemory;
use std::alloc::Global;
use std::collections::VecDeque;
use std::marker::Model;
use std::mem::swap;

/// The changer, and the configurations from before its last accepted changes. One accepted step leads from each of
/// these to the next newer one, and from the newest to the current one, so a plan can lead back (`kept_lead_to_now`).
#[derive(Drop)]
pub(crate) struct State {
    changer: Changer<SessionIds>,
    /// How many configurations are kept at most. Memory for that many is reserved, so that keeping one cannot fail after
    /// a change was accepted.
    history: usize,
    pub(crate) kept: VecDeque<Config<SessionIds>>,
}

impl Model for State {
    ghost use Rattle.std.specs.Prelude.{◌≤◌};
    ghost use Rattle.std.specs.VecDeque.{deque_capacity};
    ghost use Rattle.conf_session.specs.SessionState.{SessionState, IsSession, session_code, session_with};

    ghost Value = { SessionState };

    ghost coded = { session_code };

    ghost view = { λ s. session_with s.changer s.history s.kept.items };

    ghost invariant = { λ s. IsSession (session_with s.changer s.history s.kept.items)
        × (s.history ≤ deque_capacity s.kept) };
}

impl State {
    /// The state of a new session: an empty configuration, last index 0, and no earlier configuration.
    pub(crate) fn new(alloc: Global, history: usize, floor: Floor) -> Result<State, NoMemory>
        ensures { IfOk result (λ state. state ≡ new_session history floor) }
    {
        Ok(State {
            changer: Changer::new_with_floor(alloc, 0, floor),
            history,
            kept: VecDeque::with_capacity(alloc, history)?,
        })
    }

    /// Does nothing. Its contract states what holds of every state, for use in a caller's proof.
    pub(crate) fn is_session(&self)
        ensures { IsSession self.now }
    {
        let _ = &self.changer;
    }

    /// The changer.
    pub(crate) fn changer(&self) -> &Changer<SessionIds>
        ensures { result.now ≡ self.now.changer }
    {
        &self.changer
    }

    /// An earlier configuration. The newest, from before the last change, is at index 0.
    pub(crate) fn kept_at(&self, index: usize) -> Option<&Config<SessionIds>>
        ensures { option_copied result ≡ slice_get self.now.kept index }
    {
        self.kept.get(index)
    }

    /// The plan that undoes the last `count` accepted changes. The current configuration has a voter, since a change
    /// led to it; the earlier one may be empty.
    pub(crate) fn undo_plan(&self, alloc: Global, count: usize) -> Result<Plan, UndoFault>
        requires { 1 ≤ count }
        ensures planned { IfOk result (λ plan. undo_plan_of self.now count ≡ Ok plan) }
        ensures refused { (fault : WhyNot) → fault ≢ UndoFault.NoMemory
            → ((result ≡ Err fault) ↔ (undo_plan_of self.now count ≡ Err fault)) }
        ensures best { IfOk result (λ plan. (older : Configuration)
            → slice_get self.now.kept (count - 1) ≡ Some older
            → IsBest (current self.now) plan older) }
    {
        self.is_session();
        kept_lead_to_now();
        let now = self.changer.tracker().config();
        let Some(older) = self.kept_at(count - 1) else {
            return Err(UndoFault::NotKept(self.kept.len()));
        };
        match plan(alloc, now, older) {
            Ok(plan) => Ok(plan),
            Err(PlanFault::NoVoterNow) => unreachable!(),
            Err(PlanFault::NoVoterTarget) => Err(UndoFault::NoVoterTarget),
            Err(PlanFault::NoMemory) => Err(UndoFault::NoMemory),
        }
    }

    /// Applies the update of a directive, then counts the directive in the last index. A replaced changer is left in
    /// `next`, to be overwritten; if its configuration is kept, it is moved out first.
    pub(crate) fn apply(&mut self, update: SessionUpdate, next: &mut Changer<SessionIds>)
        requires { IsSession (after_directive self.old
            (session_change self.old.changer next.old update)) }
        ensures { self.new ≡ after_directive self.old
            (session_change self.old.changer next.old update) }
    {
        match update {
            SessionUpdate::Nothing => {}
            SessionUpdate::Acknowledged(id, index) => {
                let _ = self.changer.ack(id, index);
            }
            SessionUpdate::Stepped => {
                swap(&mut self.changer, next);
                keep(&mut self.kept, self.history, next.take_config());
            }
            SessionUpdate::Restored => {
                swap(&mut self.changer, next);
                self.kept.clear();
            }
            SessionUpdate::Undone(count) => {
                swap(&mut self.changer, next);
                forget(&mut self.kept, count);
            }
        }
        let last_index = self.changer.last_index();
        self.changer.set_last_index(last_index.saturating_add(1));
    }
}

// Adds the newest configuration, and drops the oldest if there would be more than `most`.
#[inline(always)]
fn keep(kept: &mut VecDeque<Config<SessionIds>>, most: usize, config: Config<SessionIds>)
    requires { most ≤ deque_capacity kept.old }
    ensures items { kept.new.items ≡ take most (config ∷ kept.old.items) }
    ensures capacity { deque_capacity kept.new ≡ deque_capacity kept.old }
{
    if most > 0 {
        kept.truncate(most - 1);
        kept.push_front_reserved(config);
    } else {
        kept.clear();
    }
}

// Drops the `count` newest configurations, whose changes were undone.
fn forget(kept: &mut VecDeque<Config<SessionIds>>, count: usize)
    ensures items { kept.new.items ≡ drop count kept.old.items }
    ensures capacity { deque_capacity kept.new ≡ deque_capacity kept.old }
{
    let count = count.min(kept.len());
    let left = kept.len() - count;
    kept.rotate_left(count);
    kept.truncate(left);
}
