//! The configurations along a path, and how many failures the cluster tolerates at each of them.
//!
//! A path of n steps has n + 1 stages. A step is committed by the configuration before it, so the cluster gets to the
//! end of the path, and serves there, only if each stage commits:
//!
//! ```text
//! (1 2 3)  --enter-joint r1 r2 v4 v5-->  (3 4 5)&&(1 2 3)  --leave-joint-->  (3 4 5)
//! may be down 1                          may be down 1                       may be down 1
//!                                        4 and 5 catch up: stalls until then
//! ```
//!
//! What names no source here is own.
ghost use Rattle.std.specs.Prelude.{◌≡◌, option_copied, IfOk};
ghost use Rattle.quorum_sets.specs.Ids.{no_ids, union};
ghost use Rattle.quorum_sets.specs.Tolerance as tolerance;
ghost use Rattle.quorum_sets.specs.Tolerance.{IsMostDown};
ghost use Rattle.conf_change.specs.Configuration.{voters_of};
ghost use Rattle.plan_output.specs.Stages as spec;
ghost use Rattle.plan_output.specs.Stages.{StageState, first_stage, configuration_after_step, stage_after};

use conf_change::{Config, Refused, Step, next_config};
use conf_plan::{Path, catching_up};
use quorum_sets::{InlineIds, MemberSet, NoMemory, may_be_down, union};
use std::alloc::Global;
use std::marker::Model;

/// A configuration on the way, and its members that have to catch up there: the step that led to it reset their
/// progress, or made them members, so they begin with an empty log.
#[derive(Drop)]
pub struct Stage {
    config: Config<InlineIds>,
    catching_up: InlineIds,
}

impl Model for Stage {
    ghost use Rattle.plan_output.specs.Stages.{StageState, stage_code};

    ghost Value = { StageState };

    ghost coded = { stage_code };

    ghost view = { λ s. record { config = s.config; catching_up = s.catching_up } };
}

impl Stage {
    /// The stage before the first step, where no member has to catch up.
    pub fn first(alloc: Global, now: &Config<InlineIds>) -> Result<Stage, NoMemory>
        ensures { IfOk result (λ stage. stage ≡ first_stage now.now) }
    {
        Ok(Stage {
            config: now.try_clone()?,
            catching_up: InlineIds::empty(alloc),
        })
    }

    /// The stage that a step leads to. A step that is refused changes nothing.
    pub fn next(&self, alloc: Global, step: &Step) -> Result<Stage, NoMemory>
        ensures { IfOk result (λ stage. stage ≡ stage_after self.now.config step.now) }
    {
        let config = after_step(&self.config, step)?;
        let catching_up = catching_up(alloc, &self.config, step, &config)?;
        Ok(Stage {
            config,
            catching_up,
        })
    }

    /// The configuration of the stage.
    pub fn config(&self) -> &Config<InlineIds>
        ensures { result.now ≡ self.now.config }
    {
        &self.config
    }

    /// Its members that have to catch up, a set of ids that may be empty.
    pub fn catching_up(&self) -> &InlineIds
        ensures { result.now ≡ self.now.catching_up }
    {
        &self.catching_up
    }

    /// How many ids may be down, whichever they are, once all members have caught up: 1 of `(1 2 3)`, 2 of
    /// `(1 2 3 4 5)`. `None` if the configuration has no incoming voter.
    pub fn may_be_down(&self) -> Option<usize>
        ensures most { IsMostDown (voters_of self.now.config) no_ids result }
        ensures counted { result ≡ spec.stage_may_be_down self.now }
    {
        let no_ids = InlineIds::empty(self.catching_up.allocator());
        self.most_down(&no_ids)
    }

    /// How many ids may be down until the members that have to catch up have done so; these do not count, be they down
    /// or not. `None` if the others are not a quorum even with none down: the stage stalls until then.
    pub fn while_catching_up(&self) -> Option<usize>
        ensures most { IsMostDown (voters_of self.now.config) self.now.catching_up result }
        ensures counted { result ≡ spec.while_catching_up self.now }
    {
        self.most_down(self.catching_up())
    }

    /// How many ids may be down besides these, while the members that have to catch up do not count either. `None` if
    /// the others are not a quorum even if all of them are up: the stage stalls. With 3 down that is 0 of `(1 2 3)`,
    /// and `None` of `(1 3)`. An id that is not a member changes nothing.
    pub fn may_be_down_besides(&self, down: &InlineIds) -> Result<Option<usize>, NoMemory>
        ensures most { IfOk result (λ most. IsMostDown (voters_of self.now.config)
            (union down.now self.now.catching_up) most) }
        ensures counted { IfOk result (λ most. most ≡ spec.may_be_down_besides self.now down.now) }
    {
        let uncounted = union(down, self.catching_up())?;
        Ok(self.most_down(&uncounted))
    }

    // How many ids may be down while the others, without these that do not count, are still a quorum.
    fn most_down(&self, uncounted: &InlineIds) -> Option<usize>
        ensures most { IsMostDown (voters_of self.now.config) uncounted.now result }
        ensures counted { result ≡ tolerance.may_be_down (voters_of self.now.config) uncounted.now }
    {
        let config = &self.config;
        may_be_down((&config.incoming, &config.outgoing), uncounted)
    }
}

/// The stages of a path: the configuration with which it begins, and the one after each step.
pub fn stages(alloc: Global, now: &Config<InlineIds>, path: &Path) -> Result<Vec<Stage>, NoMemory>
    ensures { IfOk result (λ stages. stages.items ≡ spec.stages now.now path.now) }
{
    let mut stages = Vec::new(alloc);
    let mut last = Stage::first(alloc, now)?;
    for step in path.as_slice() {
        let next = last.next(alloc, step)?;
        stages.push(last)?;
        last = next;
    }
    stages.push(last)?;
    Ok(stages)
}

/// The configuration after a step. A step that is refused changes nothing.
pub fn after_step(before: &Config<InlineIds>, step: &Step) -> Result<Config<InlineIds>, NoMemory>
    ensures { IfOk result (λ config. config ≡ configuration_after_step before.now step.now) }
{
    match next_config(before, step.kind(), step.changes()) {
        Ok(after) => Ok(after),
        Err(Refused::NoMemory) => Err(NoMemory),
        Err(_) => before.try_clone(),
    }
}

/// Whether a path stalls with these ids down: in the configuration with which it begins, or in one after a step, no
/// number of ids may be down besides these, while the members that have to catch up do not count either. With 2 down,
/// `(1 2 3)` commits and `(1 2)` stalls.
pub fn stalls(
    alloc: Global,
    now: &Config<InlineIds>,
    path: &Path,
    down: &InlineIds,
) -> Result<bool, NoMemory>
    ensures { IfOk result (λ answer. answer ≡ spec.stalls now.now path.now down.now) }
{
    some_stalls(stages(alloc, now, path)?.as_slice(), down)
}

// Whether ids are given that are down, and one of these stages stalls then.
pub(crate) fn stalls_at(stages: &[Stage], down: Option<&InlineIds>) -> Result<bool, NoMemory>
    ensures { IfOk result (λ answer. answer
        ≡ spec.stalls_at (option_copied down.entry) stages.now) }
{
    match down {
        Some(down) => some_stalls(stages, down),
        None => Ok(false),
    }
}

// Whether one of these stages stalls with these ids down.
fn some_stalls(stages: &[Stage], down: &InlineIds) -> Result<bool, NoMemory>
    ensures { IfOk result (λ answer. answer ≡ spec.some_stalls stages.now down.now) }
{
    for stage in stages {
        if stage.may_be_down_besides(down)?.is_none() {
            return Ok(true);
        }
    }
    Ok(false)
}
