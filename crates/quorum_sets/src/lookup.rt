//! Lookup of ids one after another, in ascending order. Two sets are compared in this way: each id of one set is looked
//! up in the other, starting where the last search ended.
ghost use Rattle.std.specs.Prelude.{◌≡◌, ℕ, ◌<◌, ◌≤◌, true, false, get_or};
ghost use Rattle.quorum_sets.specs.Ids.{has, ascending, size};

use crate::member_set::MemberSet;

/// Whether the set has the id. The search begins at `position` and sets it to where the search ended, so ascending ids
/// are looked up in one pass over the set. The position is a hint that saves time: the result is right whatever it is,
/// and no clause says where the search ends.
#[inline(always)]
pub fn contains_from<S: MemberSet>(set: &S, position: &mut usize, id: u64) -> bool
    ensures { result ≡ has (S.ids set.now) id }
{
    if seek(set, position, id) {
        return true;
    }
    if is_above(set, *position, id) {
        return false;
    }
    set.contains(id)
}

// Advances the position to the next id that is not below `id`, and returns whether it is `id`.
#[inline(always)]
fn seek<S: MemberSet>(set: &S, position: &mut usize, id: u64) -> bool
    ensures member { result ≡ true → has (S.ids set.now) id ≡ true }
    ensures below { result ≡ false → (k : ℕ) → position.new ≤ k → k < size (S.ids set.now)
        → id < get_or (ascending (S.ids set.now)) k 0 }
{
    let len = set.len();
    for at in *position..len {
        if let Some(candidate) = set.at(at) {
            if candidate >= id {
                *position = at;
                return candidate == id;
            }
        }
    }
    *position = len;
    false
}

// Whether the id is known to be above all ids before the position.
fn is_above<S: MemberSet>(set: &S, position: usize, id: u64) -> bool
    ensures { result ≡ true → (k : ℕ) → k < position → get_or (ascending (S.ids set.now)) k 0 < id }
{
    if position == 0 {
        return true;
    }
    match set.at(position - 1) {
        Some(last) => last < id,
        None => false,
    }
}
