//! The rows of the table that look at the view alone: whether it is a base for anything.
ghost use Rattle.std.specs.Prelude.{◌≡◌, IfOk};
ghost use Rattle.quorum_sets.specs.Voters.{is_quorum};
ghost use Rattle.conf_change.specs.Configuration.{voters_of};
ghost use Rattle.conf_driver.specs.IdSets as id_sets;
ghost use Rattle.conf_driver.specs.IdSets.{◌∩◌, ◌∪◌};
ghost use Rattle.conf_driver.specs.Rows as spec;
ghost use Rattle.conf_driver.specs.Situation.{values_of};

use crate::action::{Action, StuckReason, WaitReason};
use crate::sets::{common, just, or_else, without};
use crate::situation::Situation;
use crate::view::voter_ids;
use conf_change::union;
use quorum_sets::{InlineIds, MemberSet, NoMemory, is_quorum};
use std::alloc::Global;

impl<'a> Situation<'a> {
    // The first of these rows that applies.
    pub(crate) fn answer_of_view(&self, alloc: Global) -> Result<Option<Action>, NoMemory>
        ensures { IfOk result (λ answer. answer
            ≡ spec.first_of (spec.rows_of_view (values_of self.now))) }
    {
        if let Some(answer) = self.quorum_lost()? {
            return Ok(Some(answer));
        }
        if let Some(answer) = self.down_is_heard(alloc)? {
            return Ok(Some(answer));
        }
        if let Some(answer) = self.no_leader()? {
            return Ok(Some(answer));
        }
        if let Some(answer) = self.nonvoter_leads()? {
            return Ok(Some(answer));
        }
        if let Some(answer) = self.leader_is_dropped(alloc)? {
            return Ok(Some(answer));
        }
        self.pending(alloc)
    }

    fn quorum_lost(&self) -> Result<Option<Action>, NoMemory>
        ensures { IfOk result (λ answer. answer ≡ spec.quorum_lost (values_of self.now)) }
    {
        let counted = without(&self.voters, self.down)?;
        if self.is_quorum_before(&counted) {
            return Ok(None);
        }
        let lost = common(&self.voters, self.down)?;
        Ok(Some(Action::Stuck(StuckReason::QuorumLost, lost)))
    }

    // Whether the ids are a quorum before the step.
    pub(crate) fn is_quorum_before(&self, ids: &InlineIds) -> bool
        ensures { result ≡ is_quorum (voters_of self.now.before.now) ids.now }
    {
        let now = self.before;
        is_quorum((&now.incoming, &now.outgoing), ids)
    }

    fn down_is_heard(&self, alloc: Global) -> Result<Option<Action>, NoMemory>
        ensures { IfOk result (λ answer. answer ≡ spec.down_is_heard (values_of self.now)) }
    {
        let seen = self.heard_or_leading(alloc)?;
        Ok(wait_if_any(WaitReason::Heard, common(self.down, &seen)?))
    }

    // The members that are heard from, and who leads.
    fn heard_or_leading(&self, alloc: Global) -> Result<InlineIds, NoMemory>
        ensures { IfOk result (λ ids. ids
            ≡ (self.now.heard ∩ self.now.members ∪ id_sets.just self.now.lead)) }
    {
        let lead = just(alloc, self.lead)?;
        let heard = common(&self.heard, &self.members)?;
        union(&heard, &lead)
    }

    fn no_leader(&self) -> Result<Option<Action>, NoMemory>
        ensures { IfOk result (λ answer. answer ≡ spec.no_leader (values_of self.now)) }
    {
        if self.lead != 0 {
            return Ok(None);
        }
        let counted = without(&self.voters, self.down)?;
        let silent = without(&counted, &self.heard)?;
        Ok(Some(Action::Wait(WaitReason::NoLeader, or_else(silent, counted))))
    }

    fn nonvoter_leads(&self) -> Result<Option<Action>, NoMemory>
        ensures { IfOk result (λ answer. answer ≡ spec.nonvoter_leads (values_of self.now)) }
    {
        if self.voters.contains(self.lead) {
            return Ok(None);
        }
        let now = self.before;
        let ready = common(&now.incoming, &self.up)?;
        if let Some(answer) = self.transfer_to_one(&ready)? {
            return Ok(Some(answer));
        }
        let counted = without(&now.incoming, self.down)?;
        Ok(Some(self.wait_for(counted)?))
    }

    fn leader_is_dropped(&self, alloc: Global) -> Result<Option<Action>, NoMemory>
        ensures { IfOk result (λ answer. answer ≡ spec.leader_is_dropped (values_of self.now)) }
    {
        if self.is_pending {
            let successors = self.successors(alloc)?;
            return self.transfer_to_one(&successors);
        }
        Ok(None)
    }

    // Who is to lead while a change is pending, if the leader is soon to lose its vote.
    fn successors(&self, alloc: Global) -> Result<InlineIds, NoMemory>
        ensures { IfOk result (λ ids. ids ≡ spec.successors (values_of self.now)) }
    {
        let now = self.before;
        if now.is_joint() && !now.incoming.contains(self.lead) {
            return common(&now.incoming, &self.up);
        }
        let staying = voter_ids(self.target)?;
        if staying.contains(self.lead) {
            return Ok(InlineIds::empty(alloc));
        }
        common(&common(&now.incoming, &staying)?, &self.up)
    }

    fn pending(&self, alloc: Global) -> Result<Option<Action>, NoMemory>
        ensures { IfOk result (λ answer. answer ≡ spec.is_pending (values_of self.now)) }
    {
        if !self.is_pending {
            return Ok(None);
        }
        let lack = self.lack_pending.try_clone()?;
        let ids = or_else(lack, just(alloc, self.lead)?);
        Ok(Some(Action::Wait(WaitReason::Pending, ids)))
    }

    // To make one of these ids the leader, if there are any.
    pub(crate) fn transfer_to_one(&self, ids: &InlineIds) -> Result<Option<Action>, NoMemory>
        ensures { IfOk result (λ answer. answer
            ≡ spec.transfer_to_one (values_of self.now) ids.now) }
    {
        let target = self.target;
        let staying = common(ids, &target.incoming)?;
        match staying.at(0) {
            Some(id) => Ok(Some(Action::Transfer(id))),
            None => Ok(ids.at(0).map(Action::Transfer)),
        }
    }

    // To wait for those of these ids that are not heard from, or if all are, until they have caught up.
    pub(crate) fn wait_for(&self, ids: InlineIds) -> Result<Action, NoMemory>
        ensures { IfOk result (λ answer. answer ≡ spec.wait_for (values_of self.now) ids) }
    {
        let silent = without(&ids, &self.heard)?;
        if silent.len() == 0 {
            Ok(Action::Wait(WaitReason::Behind, ids))
        } else {
            Ok(Action::Wait(WaitReason::Unheard, silent))
        }
    }
}

// To wait for these ids, if there are any.
pub(crate) fn wait_if_any(why: WaitReason, ids: InlineIds) -> Option<Action>
    ensures { result ≡ spec.if_any ids (Action.Wait why) }
{
    if ids.len() == 0 {
        None
    } else {
        Some(Action::Wait(why, ids))
    }
}
