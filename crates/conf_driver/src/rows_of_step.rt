//! The rows of the table on whether the first step can be made: who votes after it and may lead, and who has to have
//! caught up.
ghost use Rattle.std.specs.Prelude.{◌≡◌, IfOk};
ghost use Rattle.conf_driver.specs.Rows as spec;
ghost use Rattle.conf_driver.specs.Situation.{values_of};

use crate::action::{Action, WaitReason};
use crate::rows_of_view::wait_if_any;
use crate::sets::{common, without};
use crate::situation::{Situation, is_less, tolerance};
use conf_change::union;
use quorum_sets::{InlineIds, MemberSet, NoMemory};

impl<'a> Situation<'a> {
    // The first of these rows that applies.
    pub(crate) fn answer_of_step(&self) -> Result<Option<Action>, NoMemory>
        ensures { IfOk result (λ answer. answer
            ≡ spec.first_of (spec.rows_of_step (values_of self.now))) }
    {
        if let Some(answer) = self.leader_leaves()? {
            return Ok(Some(answer));
        }
        if let Some(answer) = self.successor_lags()? {
            return Ok(Some(answer));
        }
        if let Some(answer) = self.at_target()? {
            return Ok(Some(answer));
        }
        if let Some(answer) = self.new_voter_lags()? {
            return Ok(Some(answer));
        }
        if let Some(answer) = self.voter_is_behind()? {
            return Ok(Some(answer));
        }
        if let Some(answer) = self.no_quorum_is_up()? {
            return Ok(Some(answer));
        }
        self.voter_is_silent()
    }

    fn leader_leaves(&self) -> Result<Option<Action>, NoMemory>
        ensures { IfOk result (λ answer. answer ≡ spec.leader_leaves (values_of self.now)) }
    {
        if self.voters_after.contains(self.lead) {
            return Ok(None);
        }
        let could = common(&common(&self.voters, &self.voters_after)?, &self.up)?;
        self.transfer_to_one(&could)
    }

    fn successor_lags(&self) -> Result<Option<Action>, NoMemory>
        ensures { IfOk result (λ answer. answer ≡ spec.successor_lags (values_of self.now)) }
    {
        if self.voters_after.contains(self.lead) {
            return Ok(None);
        }
        let staying = common(&self.voters, &self.voters_after)?;
        let could = without(&staying, self.down)?;
        if could.len() == 0 {
            return Ok(None);
        }
        Ok(Some(self.wait_for(could)?))
    }

    fn at_target(&self) -> Result<Option<Action>, NoMemory>
        ensures { IfOk result (λ answer. answer ≡ spec.at_target (values_of self.now)) }
    {
        if self.has_step {
            return Ok(None);
        }
        let needed = self.needed_at_target()?;
        let lagging = without(&without(&needed, self.down)?, &self.up)?;
        if lagging.len() == 0 {
            return Ok(Some(Action::Done));
        }
        Ok(Some(self.wait_for(lagging)?))
    }

    fn new_voter_lags(&self) -> Result<Option<Action>, NoMemory>
        ensures { IfOk result (λ answer. answer ≡ spec.new_voter_lags (values_of self.now)) }
    {
        let members = common(&self.voters_after, &self.members)?;
        let new = without(&members, &self.voters)?;
        let late = without(&without(&new, self.down)?, &self.up)?;
        if late.len() == 0 {
            return Ok(None);
        }
        Ok(Some(self.wait_for(late)?))
    }

    fn voter_is_behind(&self) -> Result<Option<Action>, NoMemory>
        ensures { IfOk result (λ answer. answer ≡ spec.voter_is_behind (values_of self.now)) }
    {
        let voters = common(&self.voters_after, &self.members)?;
        let heard = common(&voters, &self.heard)?;
        let lagging = without(&without(&heard, self.down)?, &self.up)?;
        Ok(wait_if_any(WaitReason::Behind, lagging))
    }

    fn no_quorum_is_up(&self) -> Result<Option<Action>, NoMemory>
        ensures { IfOk result (λ answer. answer ≡ spec.no_quorum_is_up (values_of self.now)) }
    {
        if self.is_quorum_before(&self.up) {
            return Ok(None);
        }
        let lagging = self.lagging_voters()?;
        Ok(Some(self.wait_for(lagging)?))
    }

    fn voter_is_silent(&self) -> Result<Option<Action>, NoMemory>
        ensures { IfOk result (λ answer. answer ≡ spec.voter_is_silent (values_of self.now)) }
    {
        let after = tolerance(&self.after, &self.up)?;
        let before = tolerance(self.before, &self.up)?;
        if !self.after.is_joint() && !is_less(after, before) {
            return Ok(None);
        }
        let silent = without(&without(&self.voters_after, self.down)?, &self.heard)?;
        Ok(wait_if_any(WaitReason::Unheard, silent))
    }

    // The members that have to have caught up at the target.
    fn needed_at_target(&self) -> Result<InlineIds, NoMemory>
        ensures { IfOk result (λ ids. ids ≡ spec.needed_at_target (values_of self.now)) }
    {
        let gone = without(self.running, &self.members)?;
        if gone.len() == 0 {
            let now = self.before;
            union(&now.incoming, &now.learners)
        } else {
            self.members.try_clone()
        }
    }
}
