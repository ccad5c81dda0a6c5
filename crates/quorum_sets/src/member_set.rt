//! The interface of a set of ids. The rules are stated for it, so they hold however a set is stored.
ghost use Rattle.std.specs.Prelude.{◌≡◌, ℕ, not, map, IfOk, OnOk, OnErr, slice_get};
ghost use Rattle.quorum_sets.specs.Ids.{Ids, no_ids, has, with_id, without_id, ascending, size, ids_of};
ghost use Rattle.quorum_sets.specs.AscendingLists.{IsAscending};
ghost use Rattle.quorum_sets.specs.Edits.{edited};

use crate::merging::IdEdit;
use ascii_text::NoMemory;
use std::alloc::Global;

/// A finite set of ids, such as the voters of a configuration. It lists its ids in ascending order, each once.
pub trait MemberSet: Drop {
    /// The ids that the set has.
    ghost ids: { Self → Ids };

    /// The empty set.
    fn empty(alloc: Global) -> Self
        ensures { ids result ≡ no_ids };

    /// The set of the ids in a list, which may be in any order and have repeats: `[3, 1, 3]` gives (1 3).
    fn of_list(alloc: Global, list: &[u64]) -> Result<Self, NoMemory>
        ensures { IfOk result (λ set. ids set ≡ ids_of list.now) };

    /// The allocator of the set.
    fn allocator(&self) -> Global;

    /// A copy.
    fn try_clone(&self) -> Result<Self, NoMemory>
        ensures { IfOk result (λ copy. ids copy ≡ ids self.now) };

    /// Overwrites `self` with the ids of another set. On `NoMemory`, `self` is left empty.
    fn try_clone_from(&mut self, other: &Self) -> Result<(), NoMemory>
        ensures ok { OnOk result (ids self.new ≡ ids other.now) }
        ensures err { OnErr result (ids self.new ≡ no_ids) };

    /// Overwrites `self` with the ids of another set after edits, which are in ascending order of the ids. On
    /// `NoMemory` its contents are unspecified.
    fn try_clone_edited<C, E: IdEdit<C>>(
        &mut self,
        other: &Self,
        edits: &[(u64, E)],
        set: &C,
    ) -> Result<(), NoMemory>
        requires { IsAscending (map (λ e. e.0) edits.now) }
        ensures { OnOk result ((id : ℕ)
            → has (ids self.new) id
            ≡ edited (λ e _. E.is_in e set.now) edits.now id (has (ids other.now) id)) };

    /// Adds the id to the set, and returns whether the set changed.
    fn insert(&mut self, id: u64) -> Result<bool, NoMemory>
        ensures changed { IfOk result (λ changed. changed ≡ not (has (ids self.old) id)) }
        ensures ok { OnOk result (ids self.new ≡ with_id (ids self.old) id) }
        ensures err { OnErr result (ids self.new ≡ ids self.old) };

    /// Removes the id from the set, and returns whether the set changed.
    fn remove(&mut self, id: u64) -> bool
        ensures changed { result ≡ has (ids self.old) id }
        ensures after { ids self.new ≡ without_id (ids self.old) id };

    /// Whether the set has the id.
    fn contains(&self, id: u64) -> bool
        ensures { result ≡ has (ids self.now) id };

    /// How many ids the set has.
    fn len(&self) -> usize
        ensures { result ≡ size (ids self.now) };

    /// The id at a position, counted from 0 in ascending order, or `None` past the end.
    fn at(&self, position: usize) -> Option<u64>
        ensures { result ≡ slice_get (ascending (ids self.now)) position };
}
