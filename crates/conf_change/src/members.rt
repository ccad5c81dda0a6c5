//! The members with their progress, in ascending order of the ids.
ghost use Rattle.std.specs.Prelude.{◌≡◌, ℕ, true, ◌==◌, Some, is_some, map, MatchResult, if◌then◌else◌};
ghost use Rattle.std.specs.Ordering.{nat_cmp};
ghost use Rattle.std.specs.FinMap as finite;
ghost use Rattle.quorum_sets.specs.AscendingLists.{IsAscending, IsAtPosition, IsInsertionPoint};

use crate::progress::Progress;
use smallvec::SmallVec;

// Members in ascending order of their ids. The list is allocated unless there is one: a changer that kept more in itself
// would be slow to move.
pub(crate) type Members = SmallVec<(u64, Progress), 1>;

// The progress of the id.
pub(crate) fn progress_of(members: &[(u64, Progress)], id: u64) -> Option<Progress>
    requires { IsAscending (map (λ m. m.0) members.now) }
    ensures { result ≡ finite.get (finite.from_entries {R = nat_cmp} members.now) id }
{
    match position_of(members, id) {
        Ok(position) => Some(members[position].1),
        Err(_) => None,
    }
}

// Sets the progress of an id, if it is a member.
pub(crate) fn set_progress_of(members: &mut [(u64, Progress)], id: u64, progress: Progress)
    requires { IsAscending (map (λ m. m.0) members.old) }
    ensures keys { map (λ m. m.0) members.new ≡ map (λ m. m.0) members.old }
    ensures gets { is_some (finite.get (finite.from_entries {R = nat_cmp} members.old) id) ≡ true
        → (q : ℕ)
        → finite.get (finite.from_entries {R = nat_cmp} members.new) q
        ≡ (if q == id then Some progress else finite.get
        (finite.from_entries {R = nat_cmp} members.old) q) }
{
    if let Ok(position) = position_of(members, id) {
        members[position] = (id, progress);
    }
}

// The position of the entry with this id, or the one at which it is to be inserted.
pub(crate) fn position_of<V>(members: &[(u64, V)], id: u64) -> Result<usize, usize>
    requires { IsAscending (map (λ m. m.0) members.now) }
    ensures { MatchResult result (λ position. IsAtPosition (map (λ m. m.0) members.now) id position)
        (λ position. IsInsertionPoint (map (λ m. m.0) members.now) id position) }
{
    members.binary_search_by_key(&id, |member| member.0)
}
