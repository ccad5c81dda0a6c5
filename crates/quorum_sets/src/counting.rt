//! Counting the ids of a set that pass a test. Quorums and failures are both counted in this way.
ghost use Rattle.std.specs.Prelude.{◌≡◌, ℕ, Bool};
ghost use Rattle.quorum_sets.specs.Ids.{count_of, majority_passes};
ghost use Rattle.quorum_sets.specs.Counting.{Computes};

use crate::majority::quorum;
use crate::member_set::MemberSet;

/// The number of ids that pass the test.
pub fn count_where<S: MemberSet, F: Fn(u64) -> bool>(set: &S, test: F) -> usize
    requires { F.IsAlwaysCallable test }
    ensures { (passes : ℕ → Bool) → Computes (F.post test) passes
        → result ≡ count_of passes (S.ids set.now) }
{
    let mut count = 0;
    for position in 0..set.len() {
        if let Some(id) = set.at(position) {
            count += usize::from(test(id));
        }
    }
    count
}

/// Whether a majority of the ids passes the test. The empty set has no majority.
pub fn majority_passes<S: MemberSet, F: Fn(u64) -> bool>(set: &S, test: F) -> bool
    requires { F.IsAlwaysCallable test }
    ensures { (passes : ℕ → Bool) → Computes (F.post test) passes
        → result ≡ majority_passes passes (S.ids set.now) }
{
    count_where(set, test) >= quorum(set.len())
}
