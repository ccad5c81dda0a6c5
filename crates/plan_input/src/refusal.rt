//! The changes that a target may not have. They are a user's mistake, where etcd's raft would pass over them or take
//! them:
//!
//! ```text
//! (1 2 3)   r7      7 is not a member, and a dead server that was meant would stay
//! (1 2 3)   r3 v3   a server that is removed and added again without its log could vote twice
//! ```
ghost use Rattle.std.specs.Prelude.{◌≡◌, ◌<◌, length};
ghost use Rattle.std.specs.List.{list_any};
ghost use Rattle.plan_input.specs.Refusal.{first_refusal, list_refusal, refusal, refusal_at, removes};

use crate::text_fault::TextFault;
use conf_change::{Change, Config, Kind};
use quorum_sets::InlineIds;

/// Why a list of changes is no target of this configuration: it is empty, or it has a change that is refused.
pub(crate) fn list_refusal(now: &Config<InlineIds>, changes: &[Change]) -> Option<TextFault>
    ensures { result ≡ list_refusal now.now changes.now }
{
    if changes.is_empty() {
        Some(TextFault::Empty)
    } else {
        first_refusal(now, changes)
    }
}

// Why the first change is refused that is.
fn first_refusal(now: &Config<InlineIds>, changes: &[Change]) -> Option<TextFault>
    ensures { result ≡ first_refusal now.now changes.now }
{
    for position in 0..changes.len() {
        let why = refusal_at(now, changes, position);
        if why.is_some() {
            return why;
        }
    }
    None
}

// Why the change at a position of the list is refused.
fn refusal_at(now: &Config<InlineIds>, changes: &[Change], position: usize) -> Option<TextFault>
    requires { position < length changes.now }
    ensures { result ≡ refusal_at now.now changes.now position }
{
    refusal(now, &changes[..position], changes[position])
}

// Why a change is refused, if these are before it in the list: it removes an id that is not a member, or it makes a
// member that is removed before a voter or a learner.
fn refusal(now: &Config<InlineIds>, before: &[Change], change: Change) -> Option<TextFault>
    ensures { result ≡ refusal now.now before.now change }
{
    let is_member = now.is_member(change.id);
    match change.kind {
        Kind::Remove if !is_member => Some(TextFault::NotAMember(change.id)),
        Kind::Voter | Kind::Learner if is_member && is_removed(before, change.id) => {
            Some(TextFault::AddedAgain(change.id))
        }
        _ => None,
    }
}

// Whether one of the changes removes the id.
fn is_removed(changes: &[Change], id: u64) -> bool
    ensures { result ≡ list_any (removes id) changes.now }
{
    changes
        .iter()
        .any(|change| change.kind == Kind::Remove && change.id == id)
}
