//! What is known of a cluster, as etcd's raft names it. A leader fills it from raft's `Status`, a tool from what the
//! members report.
ghost use Rattle.std.specs.Prelude.{◌≡◌, map, IfOk};
ghost use Rattle.quorum_sets.specs.Ids.{ascending};
ghost use Rattle.conf_driver.specs.View as spec;

use crate::sets::{common, without};
use conf_change::{Config, union};
use quorum_sets::{IdList, InlineIds, MemberSet, NoMemory};
use std::alloc::Global;
use std::marker::Model;

/// What is known of a member (etcd's `tracker.Progress`).
#[derive(Clone, Copy, Debug, Default, PartialEq, Eq)]
pub struct MemberView {
    /// Its id.
    pub id: u64,
    /// The last index at which it is known to have the leader's log (`Match`).
    pub matched: u64,
    /// Whether it was heard from lately (`RecentActive`, which is reset only with `CheckQuorum`).
    pub recent_active: bool,
}

/// What a leader knows of its cluster, or a tool that asks all members.
#[derive(Drop)]
pub struct View {
    /// The configuration that the leader has applied.
    pub conf_state: Config<InlineIds>,
    /// Who has this index knows that configuration; with a leader it is not 0. For a leader that applies a change, its last
    /// index plus one; for one that begins to lead, its last index. If `matched` is what each member has applied, the
    /// index of the change.
    pub conf_index: u64,
    /// Who leads, or 0.
    pub lead: u64,
    /// The leader's commit index.
    pub commit: u64,
    /// The index of a change in the leader's log that is not applied, or 0.
    pub pending_conf_index: u64,
    /// The members. Of an id that is left out nothing is known; of one that is repeated, the first index counts. A leader
    /// that is a member is one of them.
    pub progress: Vec<MemberView>,
    /// Who was started, and was not stopped for good.
    pub running: InlineIds,
    /// Who was stopped for good.
    pub retired: InlineIds,
    /// How many of the committed entries a member that has caught up may lack.
    pub max_lag: u64,
}

impl Model for View {
    ghost use Rattle.conf_driver.specs.View.{ViewState, view_code};

    ghost Value = { ViewState };

    ghost coded = { view_code };

    ghost view = { λ v. record {
      conf_state = v.conf_state;
      conf_index = v.conf_index;
      lead = v.lead;
      commit = v.commit;
      pending_conf_index = v.pending_conf_index;
      progress = v.progress.items;
      running = v.running;
      retired = v.retired;
      max_lag = v.max_lag;
    } };
}

// The ids that are heard from.
pub(crate) fn heard_from(alloc: Global, view: &View) -> Result<InlineIds, NoMemory>
    ensures { IfOk result (λ ids. ids ≡ spec.heard_from view.now) }
{
    let mut ids = IdList::new(alloc);
    for member in view.progress.as_slice() {
        if member.recent_active {
            ids.push(member.id)?;
        }
    }
    InlineIds::of_list(alloc, ids.as_slice())
}

// The last index at which an id is known to have the leader's log, if something is known of it.
fn known_match(view: &View, id: u64) -> Option<u64>
    ensures { result ≡ spec.known_match view.now id }
{
    view.progress
        .iter()
        .find(|member| member.id == id)
        .map(|member| member.matched)
}

// The last index at which each id of a set is known to have the leader's log, 0 if nothing is known of it.
fn matches_of(view: &View, ids: &InlineIds) -> Result<IdList, NoMemory>
    ensures { IfOk result (λ matches. matches.items
        ≡ map (spec.match_of view.now) (ascending ids.now)) }
{
    let mut matches = IdList::from_elem(ids.allocator(), 0, ids.len())?;
    // The first entry of an id is written last.
    for index in (0..view.progress.len()).rev() {
        let member = view.progress[index];
        if let Ok(position) = ids.as_slice().binary_search(&member.id) {
            matches.as_mut_slice()[position] = member.matched;
        }
    }
    Ok(matches)
}

// The ids that are known to have the log up to an index.
fn having(view: &View, index: u64, ids: &InlineIds) -> Result<InlineIds, NoMemory>
    ensures { IfOk result (λ having. having ≡ spec.having view.now index ids.now) }
{
    let matches = matches_of(view, ids)?;
    let mut having = IdList::new(ids.allocator());
    for (position, id) in ids.as_slice().iter().enumerate() {
        if matches.as_slice()[position] >= index {
            having.push(*id)?;
        }
    }
    InlineIds::of_list(ids.allocator(), having.as_slice())
}

// The other ids of the set.
pub(crate) fn lacking(view: &View, index: u64, ids: &InlineIds) -> Result<InlineIds, NoMemory>
    ensures { IfOk result (λ lacking. lacking ≡ spec.lacking view.now index ids.now) }
{
    without(ids, &having(view, index, ids)?)
}

// Who has this index knows the configuration, as far as this leader can make it known.
#[tactic(auto, using(crate::proofs::VoterIds::union_steps))]
fn known_index(view: &View) -> u64
    ensures { result ≡ spec.known_index view.now }
{
    let now = &view.conf_state;
    if now.incoming.contains(view.lead) || now.outgoing.contains(view.lead) {
        view.conf_index
    } else {
        view.conf_index.saturating_sub(1)
    }
}

// Who has this index knows the configuration and lacks no more than `max_lag`.
fn caught_up_index(view: &View) -> u64
    ensures { result ≡ spec.caught_up_index view.now }
{
    known_index(view).max(view.commit.saturating_sub(view.max_lag))
}

// Whether someone leads, and no index makes the configuration known.
pub(crate) fn lacks_conf_index(view: &View) -> bool
    ensures { result ≡ spec.lacks_conf_index view.now }
{
    view.lead != 0 && view.conf_index == 0
}

// Whether who leads is a member, and nothing is known of it.
pub(crate) fn lacks_leader_progress(view: &View) -> bool
    ensures { result ≡ spec.lacks_leader_progress view.now }
{
    view.conf_state.is_member(view.lead) && known_match(view, view.lead).is_none()
}

// The voters of a configuration, incoming and outgoing.
pub(crate) fn voter_ids(config: &Config<InlineIds>) -> Result<InlineIds, NoMemory>
    ensures { IfOk result (λ ids. ids ≡ spec.voter_ids config.now) }
{
    union(&config.incoming, &config.outgoing)
}

// The members that are up and have caught up.
pub(crate) fn up_and_caught_up(
    alloc: Global,
    down: &InlineIds,
    view: &View,
) -> Result<InlineIds, NoMemory>
    ensures { IfOk result (λ ids. ids ≡ spec.up_and_caught_up down.now view.now) }
{
    let members = view.conf_state.members()?;
    let heard = heard_from(alloc, view)?;
    let alive = without(&common(&members, &heard)?, down)?;
    having(view, caught_up_index(view), &alive)
}
