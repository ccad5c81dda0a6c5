//! What the table of [`next`](crate::next) looks at.
ghost use Rattle.std.specs.Prelude.{◌≡◌, IfOk};
ghost use Rattle.conf_change.specs.Configuration.{member_ids};
ghost use Rattle.conf_driver.specs.IdSets.{◌∖◌};
ghost use Rattle.conf_driver.specs.Situation as spec;
ghost use Rattle.conf_driver.specs.View as view_spec;
ghost use Rattle.conf_driver.specs.Situation.{situation_of, values_of};

use crate::sets::without;
use crate::view::{View, heard_from, lacking, up_and_caught_up, voter_ids};
use conf_change::Config;
use conf_plan::Path;
use plan_output::after_step;
use quorum_sets::{InlineIds, MemberSet, NoMemory, may_be_down};
use std::alloc::Global;

/// The configurations before and after the first step of the path, and sets of ids.
#[derive(Drop)]
pub struct Situation<'a> {
    // The configuration that the leader has applied.
    pub(crate) before: &'a Config<InlineIds>,
    // The configuration after the first step, or the same if there is none.
    pub(crate) after: Config<InlineIds>,
    pub(crate) target: &'a Config<InlineIds>,
    // Whether the path has a step.
    pub(crate) has_step: bool,
    // Whether the path stalls with the ids that are down.
    pub(crate) stalls: bool,
    // The voters and the members now.
    pub(crate) voters: InlineIds,
    pub(crate) members: InlineIds,
    // The voters after the step.
    pub(crate) voters_after: InlineIds,
    // Who is down, who is heard from, and who is up and has caught up.
    pub(crate) down: &'a InlineIds,
    pub(crate) heard: InlineIds,
    pub(crate) up: InlineIds,
    // The servers that run, and those that were stopped for good.
    pub(crate) running: &'a InlineIds,
    pub(crate) retired: &'a InlineIds,
    // Who leads, or 0.
    pub(crate) lead: u64,
    // Whether a change is not applied, and the voters that are not down and lack its entry.
    pub(crate) is_pending: bool,
    pub(crate) lack_pending: InlineIds,
    // The members that are not down and do not know the configuration.
    pub(crate) lack_configuration: InlineIds,
}

// The situation on the way to a target by the steps of this path.
pub(crate) fn situation_of<'a>(
    alloc: Global,
    target: &'a Config<InlineIds>,
    down: &'a InlineIds,
    view: &'a View,
    path: &Path,
    stalls: bool,
) -> Result<Situation<'a>, NoMemory>
    ensures { IfOk result (λ s. values_of s
        ≡ situation_of target.now down.now view.now path.now stalls) }
{
    let before = &view.conf_state;
    let step = around_step(before, path)?;
    let lacking = lacking_members(&step.1, &step.2, down, view)?;
    let seen = seen(alloc, down, view)?;
    let (after, voters, members, voters_after) = step;
    let (lack_pending, lack_configuration) = lacking;
    let (heard, up) = seen;
    Ok(Situation {
        before,
        after,
        target,
        has_step: path.len() != 0,
        stalls,
        voters,
        members,
        voters_after,
        down,
        heard,
        up,
        running: &view.running,
        retired: &view.retired,
        lead: view.lead,
        is_pending: view.pending_conf_index != 0,
        lack_pending,
        lack_configuration,
    })
}

// The configuration after the first step, the voters and the members before it, and the voters after it.
fn around_step(
    now: &Config<InlineIds>,
    path: &Path,
) -> Result<(Config<InlineIds>, InlineIds, InlineIds, InlineIds), NoMemory>
    ensures { let after = spec.after_first now.now path.now in
        IfOk result (λ step. step ≡
        (after, view_spec.voter_ids now.now, member_ids now.now, view_spec.voter_ids after)) }
{
    let after = after_first(now, path)?;
    let voters = voter_ids(now)?;
    let members = now.members()?;
    let voters_after = voter_ids(&after)?;
    Ok((after, voters, members, voters_after))
}

// Who is heard from, and who is up and has caught up.
fn seen(alloc: Global, down: &InlineIds, view: &View) -> Result<(InlineIds, InlineIds), NoMemory>
    ensures { IfOk result (λ all. all
        ≡ (view_spec.heard_from view.now, view_spec.up_and_caught_up down.now view.now)) }
{
    let heard = heard_from(alloc, view)?;
    Ok((heard, up_and_caught_up(alloc, down, view)?))
}

// Of those that are not down, the voters that lack the change that is pending, and the members that do not know the
// configuration.
fn lacking_members(
    voters: &InlineIds,
    members: &InlineIds,
    down: &InlineIds,
    view: &View,
) -> Result<(InlineIds, InlineIds), NoMemory>
    ensures { IfOk result (λ all. all
        ≡ (
          view_spec.lacking view.now view.now.pending_conf_index (voters.now ∖ down.now),
          view_spec.lacking view.now view.now.conf_index (members.now ∖ down.now),
        )) }
{
    let lack_pending = lacking(view, view.pending_conf_index, &without(voters, down)?)?;
    let lack_configuration = lacking(view, view.conf_index, &without(members, down)?)?;
    Ok((lack_pending, lack_configuration))
}

// The configuration after the first step, if there is one.
fn after_first(now: &Config<InlineIds>, path: &Path) -> Result<Config<InlineIds>, NoMemory>
    ensures { IfOk result (λ after. after ≡ spec.after_first now.now path.now) }
{
    match path.step(0) {
        Some(step) => after_step(now, step),
        None => now.try_clone(),
    }
}

// How many of these ids may fail while the rest is a quorum of the configuration.
pub(crate) fn tolerance(
    config: &Config<InlineIds>,
    ids: &InlineIds,
) -> Result<Option<usize>, NoMemory>
    ensures { IfOk result (λ most. most ≡ spec.tolerance config.now ids.now) }
{
    let uncounted = without(&voter_ids(config)?, ids)?;
    Ok(may_be_down((&config.incoming, &config.outgoing), &uncounted))
}

// Whether the first number is smaller; no number is smaller than each number.
pub(crate) fn is_less(first: Option<usize>, second: Option<usize>) -> bool
    ensures { result ≡ spec.is_less first second }
{
    match (first, second) {
        (_, None) => false,
        (None, Some(_)) => true,
        (Some(first), Some(second)) => first < second,
    }
}
