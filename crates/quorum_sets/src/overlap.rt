//! The overlap of two quorums. A change of the voters is safe because the quorums before and after it overlap: 1 2 is a
//! quorum of (1 2 3) and 2 3 4 is one of (1 2 3 4), and they share 2.
ghost use Rattle.std.specs.Prelude.{ℕ, IfSome, IfNone};
ghost use Rattle.quorum_sets.specs.Voters.{pair};
ghost use Rattle.quorum_sets.specs.Overlap.{IsCommon, IsLeastCommon, IsCommonMember};

use crate::lookup::contains_from;
use crate::majority::is_quorum;
use crate::member_set::MemberSet;

/// The smallest id that `first`, a quorum of the pair `before`, shares with `second`, a quorum of the pair `after`;
/// `None` if one of them is not a quorum or they share no id. A pair is the incoming and the outgoing voters. Quorums
/// of neighbouring pairs always share an id (own; that quorums overlap is from Ongaro's dissertation, 4.1 and 4.3).
pub fn common_member<S: MemberSet>(
    before: (&S, &S),
    after: (&S, &S),
    first: &S,
    second: &S,
) -> Option<u64>
    ensures { let was = pair (S.ids before.entry.0.now) (S.ids before.entry.1.now) in
        let is = pair (S.ids after.entry.0.now) (S.ids after.entry.1.now) in
        IsCommonMember was is (S.ids first.now) (S.ids second.now) result }
{
    if is_quorum(before, first) && is_quorum(after, second) {
        least_common(first, second)
    } else {
        None
    }
}

// The smallest id in both sets: for (1 2 3) and (2 3 4) it is 2.
fn least_common<S: MemberSet>(a: &S, b: &S) -> Option<u64>
    ensures least { IfSome result (IsLeastCommon (S.ids a.now) (S.ids b.now)) }
    ensures none { IfNone result ((id : ℕ) → ¬ IsCommon (S.ids a.now) (S.ids b.now) id) }
{
    let mut other_position = 0;
    for position in 0..a.len() {
        if let Some(id) = a.at(position) {
            if contains_from(b, &mut other_position, id) {
                return Some(id);
            }
        }
    }
    None
}
