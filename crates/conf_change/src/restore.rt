//! Restoring a saved configuration, as a server does when it restarts or receives a snapshot.
//!
//! etcd's `confchange.Restore` makes changes that lead to the configuration. Here the lists become its sets directly
//! (own):
//!
//! ```text
//! Voters:[1 2] VotersOutgoing:[1 2 3] Learners:[] LearnersNext:[3] AutoLeave:true
//! (1 2)&&(1 2 3) learners_next=(3) autoleave
//! ```
//!
//! A ConfState has no progress, so each member begins anew, at the last index.
ghost use Rattle.std.specs.Prelude.{◌≡◌, Some, None, Err, true, false, map, IfOk, OnOk, MatchResult};
ghost use Rattle.std.specs.FinMap as finite;
ghost use Rattle.quorum_sets.specs.AscendingLists.{IsAscending};
ghost use Rattle.quorum_sets.specs.Ids.{no_ids, has, ascending};
ghost use Rattle.conf_change.specs.Configuration.{Configuration, empty_configuration, has_voter_or_is_empty, is_restorable};
ghost use Rattle.conf_change.specs.ConfState.{Describes, Lists, names_once, restored};
ghost use Rattle.conf_change.specs.Described.{described};
ghost use Rattle.conf_change.specs.Progress.{fresh_progress, all_fresh};
ghost use Rattle.conf_change.specs.declared.floor.Floor.TheVariants.{One};
ghost use Rattle.conf_change.specs.Changer.{IsSound, begun_with};

use crate::changer::Changer;
use crate::config::Config;
use crate::floor::Floor;
use crate::members::Members;
use crate::progress::Progress;
use crate::saved_configuration::{ConfState, SavedLists};
use crate::tracker::Tracker;
use crate::violation::check;
use quorum_sets::{MemberSet, NoMemory, contains_from};
use smallvec::SmallVec;
use std::alloc::Global;
use thiserror::Error;

/// Why a saved configuration is not restored.
#[derive(Clone, Copy, Debug, PartialEq, Eq, Error)]
pub enum RestoreFault {
    /// A list names an id twice, the configuration is not valid, or it has members but no incoming voter.
    #[error("not a configuration")]
    NotAConfiguration,
    /// An allocation failed.
    #[error("out of memory")]
    NoMemory,
}

impl From<NoMemory> for RestoreFault {
    ghost use Rattle.conf_change.specs.declared.restore.RestoreFault.TheVariants.{NoMemory};

    ghost from_gives = { λ _ fault. fault ≡ NoMemory };

    fn from(_error: NoMemory) -> RestoreFault {
        RestoreFault::NoMemory
    }
}

impl<S: MemberSet> Changer<S> {
    /// A changer with the saved configuration, fresh progress and floor one (etcd's `confchange.Restore`). Refused with
    /// NotAConfiguration if a list names an id twice, if the configuration is not valid, or if it has members but no
    /// incoming voter.
    pub fn restore(
        alloc: Global,
        state: &ConfState,
        last_index: u64,
    ) -> Result<Changer<S>, RestoreFault>
        ensures described { (c : Configuration) → Describes state.now c → is_restorable c ≡ true →
            MatchResult result (λ changer. changer ≡ begun_with One last_index c)
            (λ fault. fault ≡ RestoreFault.NoMemory) }
        ensures restored { IfOk result (λ changer. Describes state.now changer.tracker.config) }
        ensures sound { IfOk result (λ changer. IsSound changer.tracker) }
        ensures as_function { MatchResult result
            (λ changer. restored state.now ≡ Some changer.tracker.config)
            (λ fault. fault ≡ RestoreFault.NotAConfiguration → restored state.now ≡ None) }
    {
        Changer::restore_with_floor(alloc, state, last_index, Floor::One)
    }

    /// As [`Changer::restore`], with this floor.
    pub fn restore_with_floor(
        alloc: Global,
        state: &ConfState,
        last_index: u64,
        floor: Floor,
    ) -> Result<Changer<S>, RestoreFault>
        // A ConfState that describes a restorable configuration is restored to it, whatever the order of its lists.
        ensures described { (c : Configuration) → Describes state.now c → is_restorable c ≡ true →
            MatchResult result (λ changer. changer ≡ begun_with floor last_index c)
            (λ fault. fault ≡ RestoreFault.NoMemory) }
        // Any other is refused, since all trackers are sound.
        ensures restored { IfOk result (λ changer. Describes state.now changer.tracker.config) }
        ensures sound { IfOk result (λ changer. IsSound changer.tracker) }
        // As a function of the ConfState:
        ensures as_function { MatchResult result
            (λ changer. restored state.now ≡ Some changer.tracker.config)
            (λ fault. fault ≡ RestoreFault.NotAConfiguration → restored state.now ≡ None) }
    {
        let config = described(alloc, state)?;
        if check(&config).is_err() || !has_voter_or_is_empty(&config) {
            return Err(RestoreFault::NotAConfiguration);
        }
        let progress = fresh_progress(alloc, &config, floor.fresh_next(last_index))?;
        Ok(Changer::begin(Tracker::begin(alloc, floor, config, progress), last_index))
    }
}

/// The configuration that a ConfState describes, valid or not. Refused with NotAConfiguration if one of its lists names
/// an id twice.
pub fn described<S: MemberSet>(alloc: Global, state: &ConfState) -> Result<Config<S>, RestoreFault>
    ensures described { IfOk result (λ config. Describes state.now config) }
    ensures refused { result ≡ Err RestoreFault.NotAConfiguration → (c : Configuration)
        → Describes state.now c → ⊥ }

    // As a function of the ConfState:
    ensures value { IfOk result (λ config. described state.now ≡ Some config) }
    ensures fault { result ≡ Err RestoreFault.NotAConfiguration → described state.now ≡ None }
{
    described_lists(alloc, &state.lists())
}

/// As [`described`], of lists that are borrowed.
pub fn described_lists<S: MemberSet>(
    alloc: Global,
    lists: &SavedLists<'_>,
) -> Result<Config<S>, RestoreFault>
    ensures described { IfOk result (λ config. Describes lists.now config) }
    ensures refused { result ≡ Err RestoreFault.NotAConfiguration → (c : Configuration)
        → Describes lists.now c → ⊥ }
    ensures value { IfOk result (λ config. described lists.now ≡ Some config) }
    ensures fault { result ≡ Err RestoreFault.NotAConfiguration → described lists.now ≡ None }
{
    let mut config = Config::empty(alloc);
    fill_sets(alloc, &mut config, lists)?;
    Ok(config)
}

// Makes the configuration that these lists describe of an empty one, in its place.
pub(crate) fn fill_sets<S: MemberSet>(
    alloc: Global,
    config: &mut Config<S>,
    lists: &SavedLists<'_>,
) -> Result<(), RestoreFault>
    requires empty { config.old ≡ empty_configuration }
    ensures described { OnOk result (Describes lists.now config.new) }
    ensures refused { result ≡ Err RestoreFault.NotAConfiguration → (c : Configuration)
        → Describes lists.now c → ⊥ }
    ensures value { OnOk result (described lists.now ≡ Some config.new) }
    ensures fault { result ≡ Err RestoreFault.NotAConfiguration → described lists.now ≡ None }
{
    fill(alloc, &mut config.incoming, lists.voters)?;
    fill(alloc, &mut config.outgoing, lists.voters_outgoing)?;
    fill(alloc, &mut config.learners, lists.learners)?;
    fill(alloc, &mut config.learners_next, lists.learners_next)?;
    config.auto_leave = lists.auto_leave;
    Ok(())
}

// Fills an empty set with the ids of a list. Refused if the list names an id twice, since the set is then smaller than
// the list.
fn fill<S: MemberSet>(alloc: Global, set: &mut S, list: &[u64]) -> Result<(), RestoreFault>
    requires empty { S.ids set.old ≡ no_ids }
    ensures once { OnOk result (Lists list.now (S.ids set.new)) }
    ensures twice { result ≡ Err RestoreFault.NotAConfiguration → names_once list.now ≡ false }
{
    if list.is_empty() {
        return Ok(());
    }
    *set = S::of_list(alloc, list)?;
    if set.len() == list.len() {
        Ok(())
    } else {
        Err(RestoreFault::NotAConfiguration)
    }
}

/// Whether the configuration has an incoming voter or is empty. Steps from the empty one never lead to a configuration
/// without a voter.
pub fn has_voter_or_is_empty<S: MemberSet>(config: &Config<S>) -> bool
    ensures { result ≡ has_voter_or_is_empty config.now }
{
    config.incoming.len() != 0
        || (config.outgoing.len() == 0
            && config.learners.len() == 0
            && config.learners_next.len() == 0)
}

// Fresh progress of all members with this initial next index, in ascending order of the ids.
fn fresh_progress<S: MemberSet>(
    alloc: Global,
    config: &Config<S>,
    next_index: u64,
) -> Result<Members, NoMemory>
    ensures ascends { IfOk result (λ members. IsAscending (map (λ m. m.0) members.items)) }
    ensures fresh { IfOk result
        (λ members. finite.from_entries members.items ≡ all_fresh next_index config.now) }
{
    let ids = config.members()?;
    fresh_of(alloc, &ids, &config.learners, next_index)
}

// Fresh progress of each of these ids, of which these are learners.
fn fresh_of<S: MemberSet>(
    alloc: Global,
    ids: &S,
    learners: &S,
    next_index: u64,
) -> Result<Members, NoMemory>
    ensures { IfOk result (λ members. members.items
        ≡ map (λ id. (id, fresh_progress next_index (has (S.ids learners.now) id)))
        (ascending (S.ids ids.now))) }
{
    let fresh = Progress::fresh(next_index);
    let mut members = SmallVec::with_capacity(alloc, ids.len())?;
    let mut learner_position = 0;
    for position in 0..ids.len() {
        if let Some(id) = ids.at(position) {
            let learner = contains_from(learners, &mut learner_position, id);
            members.push((id, Progress { learner, ..fresh }))?;
        }
    }
    Ok(members)
}
