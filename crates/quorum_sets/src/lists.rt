//! The ids of a set as a list, in ascending order.
ghost use Rattle.std.specs.Prelude.{◌≡◌, ◌++◌, IfOk, OnOk, OnErr};
ghost use Rattle.quorum_sets.specs.Ids.{ascending};

use crate::member_set::MemberSet;
use ascii_text::NoMemory;
use smallvec::SmallVec;
use std::alloc::Global;

/// A list of ids. Up to 16 are kept in the list itself: as many as two small sets have.
pub type IdList = SmallVec<u64, 16>;

/// The ids of a set, in ascending order.
pub fn list_of<S: MemberSet>(alloc: Global, set: &S) -> Result<Vec<u64>, NoMemory>
    ensures { IfOk result (λ list. list.items ≡ ascending (S.ids set.now)) }
{
    let mut list = Vec::with_capacity(alloc, set.len())?;
    for position in 0..set.len() {
        if let Some(id) = set.at(position) {
            list.push(id)?;
        }
    }
    Ok(list)
}

/// Appends the ids of a set to a list, in ascending order.
pub fn add_ids<S: MemberSet>(ids: &mut IdList, set: &S) -> Result<(), NoMemory>
    ensures ok { OnOk result (ids.new.items ≡ ids.old.items ++ ascending (S.ids set.now)) }
    ensures err { OnErr result (ids.new.items ≡ ids.old.items) }
{
    ids.reserve(set.len())?;
    for position in 0..set.len() {
        if let Some(id) = set.at(position) {
            ids.push_reserved(id);
        }
    }
    Ok(())
}
