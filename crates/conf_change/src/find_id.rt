//! The first id of a set that passes a test.
ghost use Rattle.std.specs.Prelude.{◌≡◌, ℕ, Bool, find};
ghost use Rattle.quorum_sets.specs.Counting.{Computes};
ghost use Rattle.quorum_sets.specs.Ids.{ascending};

use quorum_sets::MemberSet;

// The least id of a set that passes the test.
pub(crate) fn find_id<S: MemberSet, F: Fn(u64) -> bool>(ids: &S, test: F) -> Option<u64>
    requires { F.IsAlwaysCallable test }
    ensures { (passes : ℕ → Bool) → Computes (F.post test) passes
        → result ≡ find passes (ascending (S.ids ids.now)) }
{
    for position in 0..ids.len() {
        if let Some(id) = ids.at(position) {
            if test(id) {
                return Some(id);
            }
        }
    }
    None
}
