//! Comparisons that do not allocate.
ghost use Rattle.std.specs.Prelude.{◌≡◌, true};

use conf_change::{Changer, ConfState, Step};
use quorum_sets::MemberSet;

/// Whether a set has exactly these ids, which are in ascending order.
pub fn has_ids<S: MemberSet>(set: &S, ids: &[u64]) -> bool {
    let mut is_so = set.len() == ids.len();
    for (index, id) in ids.iter().enumerate() {
        is_so &= (set.at(index) == Some(*id)) & set.contains(*id);
    }
    is_so
}

/// Whether two changers are equal.
pub fn is_same<S: MemberSet>(changer: &Changer<S>, other: &Changer<S>) -> bool {
    let tracker = changer.tracker();
    let others = other.tracker();
    let mut is_so = tracker.config().same(others.config())
        & (tracker.member_count() == others.member_count())
        & (changer.last_index() == other.last_index())
        & (changer.floor() == other.floor());
    for index in 0..tracker.member_count() {
        is_so &= tracker.member_at(index) == others.member_at(index);
    }
    is_so
}

/// Whether two lists have equal steps, in the same order.
pub fn has_steps(steps: &[Step], expected: &[Step]) -> bool {
    let mut is_so = steps.len() == expected.len();
    for (step, other) in steps.iter().zip(expected) {
        is_so &= (step.kind() == other.kind()) & (step.changes() == other.changes());
    }
    is_so
}

/// Whether two saved configurations have the same lists, in the same order, and the same flag.
pub fn is_same_state(state: &ConfState, other: &ConfState) -> bool
    ensures { result ≡ true → state.now ≡ other.now }
{
    (state.voters == other.voters)
        & (state.voters_outgoing == other.voters_outgoing)
        & (state.learners == other.learners)
        & (state.learners_next == other.learners_next)
        & (state.auto_leave == other.auto_leave)
}
