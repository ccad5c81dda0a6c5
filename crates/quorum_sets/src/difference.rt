//! How far two sets differ. A simple change adds or removes at most one voter, so the voters before and after it differ
//! in at most one id.
ghost use Rattle.std.specs.Prelude.{◌≡◌, ◌-◌, ◌^◌, ◌≤◌, min};
ghost use Rattle.quorum_sets.specs.Ids.{has, size, count_of, difference_count};

use crate::lookup::contains_from;
use crate::member_set::MemberSet;

/// The number of ids that are in exactly one of the sets, saturating at the greatest `usize` (`symdiff` of etcd's
/// package `confchange`). For (1 2 3) and (2 3 4) it is 2: 1 and 4 are each in one of them.
pub fn symdiff<S: MemberSet>(a: &S, b: &S) -> usize
    ensures { result ≡ min (difference_count (S.ids a.now) (S.ids b.now)) (2 ^ 64 - 1) }
{
    let common = common_count(a, b);
    (a.len() - common).saturating_add(b.len() - common)
}

// The number of ids that are in both sets.
fn common_count<S: MemberSet>(a: &S, b: &S) -> usize
    ensures count { result ≡ count_of (has (S.ids b.now)) (S.ids a.now) }
    ensures within { result ≤ size (S.ids a.now) }
    ensures within_other { result ≤ size (S.ids b.now) }
{
    let mut count = 0;
    let mut other_position = 0;
    for position in 0..a.len() {
        if let Some(id) = a.at(position) {
            count += usize::from(contains_from(b, &mut other_position, id));
        }
    }
    count
}
