//! A set of ids in a tree of the standard library.
ghost use Rattle.std.specs.Prelude.{◌≡◌, slice_get};
ghost use Rattle.std.specs.Ordering.{nat_cmp};
ghost use Rattle.std.specs.BTreeSet.{IsOrdered};

use crate::member_set::MemberSet;
use crate::merging::IdEdit;
use ascii_text::NoMemory;
use std::alloc::Global;
use std::collections::BTreeSet;
use std::marker::Model;

/// A set of ids in a `BTreeSet`, for sets that get their ids one at a time and in any order.
#[derive(Drop)]
pub struct TreeIds {
    tree: BTreeSet<u64>,
    alloc: Global,
}

impl Model for TreeIds {
    ghost use Rattle.std.specs.Coded.{coded_ℕ};
    ghost use Rattle.std.specs.FinSet as set;
    ghost use Rattle.quorum_sets.specs.Ids.{Ids, ids_of};

    ghost Value = { Ids };

    ghost coded = { set.code coded_ℕ };

    ghost view = { λ inner. ids_of inner.tree.keys };
}

#[tactic(auto, using(crate::proofs::KeptSets::Tree::tree_steps))]
impl MemberSet for TreeIds {
    ghost ids = { λ set. set };

    fn empty(alloc: Global) -> TreeIds {
        TreeIds {
            tree: BTreeSet::new(alloc),
            alloc,
        }
    }

    fn of_list(alloc: Global, list: &[u64]) -> Result<TreeIds, NoMemory> {
        let mut set = TreeIds::empty(alloc);
        for id in list {
            set.insert(*id)?;
        }
        Ok(set)
    }

    fn allocator(&self) -> Global {
        self.alloc
    }

    fn try_clone(&self) -> Result<TreeIds, NoMemory> {
        let tree = self.tree.clone()?;
        Ok(TreeIds { tree, ..*self })
    }

    fn try_clone_from(&mut self, other: &TreeIds) -> Result<(), NoMemory> {
        self.tree.clear();
        self.tree = other.tree.clone()?;
        Ok(())
    }

    fn try_clone_edited<C, E: IdEdit<C>>(
        &mut self,
        other: &TreeIds,
        edits: &[(u64, E)],
        set: &C,
    ) -> Result<(), NoMemory> {
        self.try_clone_from(other)?;
        for (id, edit) in edits {
            if edit.is_in(set) {
                self.insert(*id)?;
            } else {
                self.remove(*id);
            }
        }
        Ok(())
    }

    fn insert(&mut self, id: u64) -> Result<bool, NoMemory> {
        Ok(self.tree.insert(id)?)
    }

    fn remove(&mut self, id: u64) -> bool {
        self.tree.remove(&id)
    }

    fn contains(&self, id: u64) -> bool {
        self.tree.contains(&id)
    }

    fn len(&self) -> usize {
        self.tree.len()
    }

    fn at(&self, position: usize) -> Option<u64> {
        key_at(&self.tree, position)
    }
}

// The key at a position, in ascending order.
fn key_at(tree: &BTreeSet<u64>, position: usize) -> Option<u64>
    ensures key { result ≡ slice_get tree.now.keys position }
    ensures ordered { IsOrdered nat_cmp tree.now }
{
    tree.iter().copied().nth(position)
}
