//! What a list of changes makes of each id that it names. Of several changes of one id the last effective one decides
//! its roles, and a removal anywhere among them ends its progress, unless it is an outgoing voter. `v4 r4 l4` is one
//! edit: 4 becomes a learner, with fresh progress.
ghost use Rattle.std.specs.Prelude.{◌≡◌, ◌==◌, ◌&&◌, not, [], map, Some, None, OnOk};
ghost use Rattle.quorum_sets.specs.AscendingLists.{IsAscending};
ghost use Rattle.conf_change.specs.Change.{is_update};
ghost use Rattle.conf_change.specs.Edits.{Adds, AreEdits, has_role, member_after, with_change};

use crate::change::{Change, Kind};
use crate::members::position_of;
use crate::progress::Progress;
use quorum_sets::{IdEdit, ItemEdit, MemberSet, NoMemory, contains_from};
use smallvec::SmallVec;

/// What a list of changes makes of an id that it names.
#[derive(Clone, Copy, Debug, Default)]
pub(crate) struct Edit {
    /// The kind of its last effective change.
    pub(crate) kind: Kind,
    /// Whether a change removes it.
    pub(crate) removed: bool,
    /// Whether it is an outgoing voter, which it stays.
    pub(crate) outgoing: bool,
}

/// The edits of a list, in ascending order of the ids. Few changes are made at once, and up to 8 take no memory.
pub(crate) type Edits = SmallVec<(u64, Edit), 8>;

/// A role that an edit gives an id or takes from it: that of an incoming voter, a learner or a next learner.
#[derive(Clone, Copy, Debug)]
pub(crate) enum Role {
    Incoming,
    Learner,
    Next,
}

impl Edit {
    // The edit of an effective change of this kind.
    fn new(kind: Kind, outgoing: bool) -> Edit
        ensures { result ≡ with_change None kind outgoing }
    {
        Edit {
            kind,
            removed: matches!(kind, Kind::Remove),
            outgoing,
        }
    }

    // The edit after one more effective change, of this kind.
    fn and(self, kind: Kind) -> Edit
        ensures { result ≡ with_change (Some self) kind self.outgoing }
    {
        Edit {
            kind,
            removed: self.removed || matches!(kind, Kind::Remove),
            ..self
        }
    }
}

impl IdEdit<Role> for Edit {
    ghost is_in = { has_role };

    // An outgoing voter does not become a learner yet, but a next learner.
    fn is_in(self, role: &Role) -> bool
        ensures { result ≡ has_role self role.now }
    {
        match role {
            Role::Incoming => matches!(self.kind, Kind::Voter),
            Role::Learner => matches!(self.kind, Kind::Learner) && !self.outgoing,
            Role::Next => matches!(self.kind, Kind::Learner) && self.outgoing,
        }
    }
}

impl ItemEdit<(u64, Progress), u64> for Edit {
    ghost use Rattle.conf_change.specs.EditLaws.{member_after-has_id};

    ghost item_after = { member_after };

    ghost has_id = { member_after-has_id };

    // A member keeps its progress, unless it is removed on the way and is not an outgoing voter.
    fn item_after(
        self,
        next_index: &u64,
        id: u64,
        item: Option<(u64, Progress)>,
    ) -> Option<(u64, Progress)>
        ensures { result ≡ member_after self next_index.now id item }
    {
        let learner = self.is_in(&Role::Learner);
        if !(self.outgoing || learner || self.is_in(&Role::Incoming)) {
            return None;
        }
        let known = match item {
            Some((_, progress)) if self.outgoing || !self.removed => progress,
            _ => Progress::fresh(*next_index),
        };
        Some((id, Progress { learner, ..known }))
    }
}

/// Overwrites `edits` with those of a list of changes, among these outgoing voters. An id without an effective change
/// has no edit. On `NoMemory` the contents are unspecified.
pub(crate) fn settle<S: MemberSet>(
    edits: &mut Edits,
    changes: &[Change],
    outgoing: &S,
) -> Result<(), NoMemory>
    ensures { OnOk result (AreEdits changes.now (S.ids outgoing.now) edits.new.items) }
{
    edits.clear();
    if is_ascending(changes) {
        return add_each(edits, changes, outgoing);
    }
    // The sort is stable, so the changes of an id stay in order.
    let alloc = *edits.allocator();
    let mut sorted: SmallVec<Change, 8> = SmallVec::from_slice(alloc, changes)?;
    sorted
        .as_mut_slice()
        .sort_by_key(alloc, |change| change.id)?;
    add_each(edits, sorted.as_slice(), outgoing)
}

// Whether the ids are in ascending order.
fn is_ascending(changes: &[Change]) -> bool {
    for position in 1..changes.len() {
        if changes[position - 1].id > changes[position].id {
            return false;
        }
    }
    true
}

// Adds the changes one after another to no edits. They may be in any order.
fn add_each<S: MemberSet>(
    edits: &mut Edits,
    changes: &[Change],
    outgoing: &S,
) -> Result<(), NoMemory>
    requires { edits.old.items ≡ [] }
    ensures { OnOk result (AreEdits changes.now (S.ids outgoing.now) edits.new.items) }
{
    let mut position = 0;
    for change in changes {
        if is_effective(*change) {
            let is_outgoing = contains_from(outgoing, &mut position, change.id);
            add(edits, *change, is_outgoing)?;
        }
    }
    Ok(())
}

// Whether the change is effective for its id: the id is not 0, and the change is not an update.
fn is_effective(change: Change) -> bool
    ensures { result ≡ (not (change.id == 0) && not (is_update change.kind)) }
{
    change.id != 0 && !matches!(change.kind, Kind::Update)
}

// Adds an effective change to the edit of its id.
fn add(edits: &mut Edits, change: Change, outgoing: bool) -> Result<(), NoMemory>
    requires { IsAscending (map (λ e. e.0) edits.old.items) }
    ensures ascends { OnOk result (IsAscending (map (λ e. e.0) edits.new.items)) }
    ensures added { OnOk result (Adds change outgoing edits.old.items edits.new.items) }
{
    match position_of(edits.as_slice(), change.id) {
        Ok(position) => {
            let known = edits.as_slice()[position].1;
            edits.as_mut_slice()[position] = (change.id, known.and(change.kind));
        }
        Err(position) => {
            let edit = Edit::new(change.kind, outgoing);
            edits.insert(position, (change.id, edit))?;
        }
    }
    Ok(())
}
