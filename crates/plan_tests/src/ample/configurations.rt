//! Sets and configurations of given ids. The tests of `core_tests` have these functions too: one that may end a test
//! stands among the tests of its crate, where another crate does not reach it.
use conf_change::Config;
use quorum_sets::MemberSet;
use test_support::runtime::Runtime;

/// The incoming voters, the outgoing voters, the learners and the next learners.
pub(crate) type Sets = [&'static [u64]; 4];

pub(crate) fn set_of<S: MemberSet>(rt: &impl Runtime, ids: &[u64]) -> S {
    S::of_list(rt.alloc(), ids).expect(rt, "a set")
}

pub(crate) fn config_of<S: MemberSet>(
    rt: &impl Runtime,
    sets: Sets,
    auto_leave: bool,
) -> Config<S> {
    let [incoming, outgoing, learners, learners_next] = sets;
    Config {
        incoming: set_of(rt, incoming),
        outgoing: set_of(rt, outgoing),
        learners: set_of(rt, learners),
        learners_next: set_of(rt, learners_next),
        auto_leave,
    }
}
