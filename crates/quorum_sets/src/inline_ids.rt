//! A set of ids as a sorted list.
ghost use Rattle.std.specs.Prelude.{◌≡◌, ◌<◌, ◌≤◌, true, not, length, IfOk, OnOk, OnErr, IsOk, MatchResult};
ghost use Rattle.quorum_sets.specs.Ids.{no_ids, ascending, has, with_id, size, ids_of};
ghost use Rattle.quorum_sets.specs.AscendingLists.{IsAscending, IsAtPosition, IsInsertionPoint};

use crate::member_set::MemberSet;
use crate::merging::{IdEdit, merge};
use ascii_text::NoMemory;
use smallvec::SmallVec;
use std::alloc::Global;
use std::marker::Model;

/// A set of ids as a sorted list. Only a set of more than 8 ids can run out of memory.
#[derive(Drop)]
pub struct InlineIds {
    // A cluster has few members, so the list keeps up to 8 ids in the value itself.
    list: SmallVec<u64, 8>,
}

impl Model for InlineIds {
    ghost use Rattle.std.specs.Coded.{coded_ℕ};
    ghost use Rattle.std.specs.FinSet as set;
    ghost use Rattle.quorum_sets.specs.Ids.{Ids, ids_of};
    ghost use Rattle.quorum_sets.specs.AscendingLists.{IsIdList};

    ghost Value = { Ids };

    ghost coded = { set.code coded_ℕ };

    ghost view = { λ inner. ids_of inner.list.items };

    ghost invariant = { λ inner. IsIdList inner.list };
}

#[tactic(auto, using(crate::proofs::KeptSets::AscendingList::list_steps))]
impl MemberSet for InlineIds {
    ghost ids = { λ set. set };

    #[inline(always)]
    fn empty(alloc: Global) -> InlineIds {
        InlineIds {
            list: SmallVec::new(alloc),
        }
    }

    fn of_list(alloc: Global, list: &[u64]) -> Result<InlineIds, NoMemory>
        ensures set { IfOk result (λ set. set ≡ ids_of list.now) }
        ensures few { length list.now ≤ 8 → IsOk result }
    {
        let mut own = SmallVec::from_slice(alloc, list)?;
        if !is_ascending(list) {
            own.as_mut_slice().sort_unstable();
            own.dedup();
        }
        Ok(InlineIds { list: own })
    }

    fn allocator(&self) -> Global {
        *self.list.allocator()
    }

    fn try_clone(&self) -> Result<InlineIds, NoMemory>
        ensures same { IfOk result (λ copy. copy ≡ self.now) }
        ensures few { size self.now ≤ 8 → IsOk result }
    {
        let list = SmallVec::from_slice(self.allocator(), self.list.as_slice())?;
        Ok(InlineIds { list })
    }

    fn try_clone_from(&mut self, other: &InlineIds) -> Result<(), NoMemory>
        ensures ok { OnOk result (self.new ≡ other.now) }
        ensures err { OnErr result (self.new ≡ no_ids) }
        ensures few { size other.now ≤ 8 → IsOk result }
    {
        self.list.clear();
        if !other.list.is_empty() {
            self.list.extend_from_slice(other.list.as_slice())?;
        }
        Ok(())
    }

    fn try_clone_edited<C, E: IdEdit<C>>(
        &mut self,
        other: &InlineIds,
        edits: &[(u64, E)],
        set: &C,
    ) -> Result<(), NoMemory> {
        merge(&mut self.list, other.list.as_slice(), edits, set)
    }

    fn insert(&mut self, id: u64) -> Result<bool, NoMemory>
        ensures changed { IfOk result (λ changed. changed ≡ not (has self.old id)) }
        ensures ok { OnOk result (self.new ≡ with_id self.old id) }
        ensures err { OnErr result (self.new ≡ self.old) }
        ensures few { size self.old < 8 → IsOk result }
    {
        let Err(position) = position_of(self.list.as_slice(), id) else {
            return Ok(false);
        };
        self.list.insert(position, id)?;
        Ok(true)
    }

    fn remove(&mut self, id: u64) -> bool {
        let Ok(position) = position_of(self.list.as_slice(), id) else {
            return false;
        };
        self.list.remove(position);
        true
    }

    fn contains(&self, id: u64) -> bool {
        position_of(self.list.as_slice(), id).is_ok()
    }

    fn len(&self) -> usize {
        self.list.len()
    }

    fn at(&self, position: usize) -> Option<u64> {
        self.list.as_slice().get(position).copied()
    }
}

impl InlineIds {
    /// The ids, in ascending order.
    pub fn as_slice(&self) -> &[u64]
        ensures ids { result.now ≡ ascending self.now }
        ensures ascends { IsAscending result.now }
    {
        self.list.as_slice()
    }
}

// Whether the list is strictly ascending, as most lists of ids are written.
fn is_ascending(list: &[u64]) -> bool
    ensures { result ≡ true → IsAscending list.now }
{
    for position in 1..list.len() {
        if list[position - 1] >= list[position] {
            return false;
        }
    }
    true
}

// The position of the id in an ascending list, or as an error the position at which it is to be inserted. In (1 3 5) it
// is `Ok(1)` for 3 and `Err(2)` for 4.
fn position_of(list: &[u64], id: u64) -> Result<usize, usize>
    requires { IsAscending list.now }
    ensures { MatchResult result (λ position. IsAtPosition list.now id position)
        (λ position. IsInsertionPoint list.now id position) }
{
    list.binary_search(&id)
}
