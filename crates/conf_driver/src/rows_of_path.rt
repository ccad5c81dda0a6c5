//! The rows of the table on whether the path can be taken, on servers, and on automatic leaving.
ghost use Rattle.std.specs.Prelude.{◌≡◌, IfOk};
ghost use Rattle.conf_driver.specs.IdSets.{◌∖◌};
ghost use Rattle.conf_driver.specs.Rows as spec;
ghost use Rattle.conf_driver.specs.Situation.{values_of};

use crate::action::{Action, StuckReason, WaitReason};
use crate::sets::{common, just, or_else, without};
use crate::situation::Situation;
use crate::view::voter_ids;
use conf_change::union;
use quorum_sets::{InlineIds, MemberSet, NoMemory};
use std::alloc::Global;

impl<'a> Situation<'a> {
    // The first of these rows that applies.
    pub(crate) fn answer_of_path(&self, alloc: Global) -> Result<Option<Action>, NoMemory>
        ensures { IfOk result (λ answer. answer
            ≡ spec.first_of (spec.rows_of_path (values_of self.now))) }
    {
        if let Some(answer) = self.path_stalls()? {
            return Ok(Some(answer));
        }
        if let Some(answer) = self.id_is_reused()? {
            return Ok(Some(answer));
        }
        if let Some(answer) = self.not_started()? {
            return Ok(Some(answer));
        }
        if let Some(answer) = self.not_stopped()? {
            return Ok(Some(answer));
        }
        self.leaving(alloc)
    }

    fn path_stalls(&self) -> Result<Option<Action>, NoMemory>
        ensures { IfOk result (λ answer. answer ≡ spec.path_stalls (values_of self.now)) }
    {
        if !self.stalls {
            return Ok(None);
        }
        let voters = union(&self.voters, &voter_ids(self.target)?)?;
        let ids = common(self.down, &voters)?;
        Ok(Some(Action::Stuck(StuckReason::Stalls, ids)))
    }

    fn id_is_reused(&self) -> Result<Option<Action>, NoMemory>
        ensures { IfOk result (λ answer. answer ≡ spec.id_is_reused (values_of self.now)) }
    {
        let added = without(&self.target.members()?, &self.voters)?;
        let reused = common(&added, self.retired)?;
        if reused.len() == 0 {
            return Ok(None);
        }
        Ok(Some(Action::Stuck(StuckReason::Reused, reused)))
    }

    fn not_started(&self) -> Result<Option<Action>, NoMemory>
        ensures { IfOk result (λ answer. answer ≡ spec.not_started (values_of self.now)) }
    {
        let members = union(&self.after.members()?, &self.members)?;
        let staying = common(&members, &self.target.members()?)?;
        let others = without(&staying, &self.voters)?;
        let absent = without(&without(&others, self.down)?, self.running)?;
        if absent.len() == 0 {
            return Ok(None);
        }
        Ok(Some(Action::Start(absent)))
    }

    fn not_stopped(&self) -> Result<Option<Action>, NoMemory>
        ensures { IfOk result (λ answer. answer ≡ spec.not_stopped (values_of self.now)) }
    {
        if !self.may_stop()? {
            return Ok(None);
        }
        let others = without(self.running, &self.members)?;
        let gone = without(&others, &self.target.members()?)?;
        if gone.len() == 0 {
            return Ok(None);
        }
        Ok(Some(Action::Stop(gone)))
    }

    // Whether each member that is not down knows the configuration, and the voters that are heard from are a quorum.
    fn may_stop(&self) -> Result<bool, NoMemory>
        ensures { IfOk result (λ may. may ≡ spec.may_stop (values_of self.now)) }
    {
        let heard = common(&self.voters, &self.heard)?;
        let counted = without(&heard, self.down)?;
        Ok(self.lack_configuration.len() == 0 && self.is_quorum_before(&counted))
    }

    fn leaving(&self, alloc: Global) -> Result<Option<Action>, NoMemory>
        ensures { IfOk result (λ answer. answer ≡ spec.is_leaving (values_of self.now)) }
    {
        let now = self.before;
        if !self.has_step || !now.auto_leave {
            return Ok(None);
        }
        let lagging = self.lagging_voters()?;
        let ids = or_else(lagging, just(alloc, self.lead)?);
        Ok(Some(Action::Wait(WaitReason::Leaving, ids)))
    }

    // The voters that are not down, and are not up with all.
    pub(crate) fn lagging_voters(&self) -> Result<InlineIds, NoMemory>
        ensures { IfOk result (λ ids. ids ≡ (self.now.voters ∖ self.now.down.now ∖ self.now.up)) }
    {
        let counted = without(&self.voters, self.down)?;
        without(&counted, &self.up)
    }
}
