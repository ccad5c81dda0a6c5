//! Configurations, valid and broken ones.
use crate::ample::sets_and_quorums::set_of;
use conf_change::{Config, Invariant, Violation, check, first_violation};
use quorum_sets::TreeIds;
use test_support::runtime::Runtime;

/// The incoming voters, the outgoing voters, the learners and the next learners.
pub(crate) type Sets = [&'static [u64]; 4];

pub(crate) fn config_of(rt: &impl Runtime, sets: Sets, auto_leave: bool) -> Config<TreeIds> {
    let [incoming, outgoing, learners, learners_next] = sets;
    Config {
        incoming: set_of(rt, incoming),
        outgoing: set_of(rt, outgoing),
        learners: set_of(rt, learners),
        learners_next: set_of(rt, learners_next),
        auto_leave,
    }
}

// Configurations, and of each the first broken invariant, and the violation with the least id.
static CHECKED: [(Sets, bool, Result<(), Invariant>, Option<Violation>); 9] = [
    (
        [&[1], &[2, 3], &[], &[1, 2, 3]],
        false,
        Err(Invariant::NextNotOutgoing),
        Some(Violation::NextNotOutgoing(1)),
    ),
    (
        [&[1], &[2], &[], &[2, 4, 3]],
        false,
        Err(Invariant::NextNotOutgoing),
        Some(Violation::NextNotOutgoing(3)),
    ),
    (
        [&[3, 2, 5], &[1, 2, 3], &[], &[3, 2, 1]],
        false,
        Err(Invariant::NextAndIncoming),
        Some(Violation::NextAndIncoming(2)),
    ),
    (
        [&[0], &[], &[0], &[]],
        false,
        Err(Invariant::ZeroId),
        Some(Violation::ZeroId),
    ),
    (
        [&[1], &[2], &[3, 2], &[]],
        false,
        Err(Invariant::LearnerAndVoter),
        Some(Violation::LearnerAndVoter(2)),
    ),
    (
        [&[5, 4], &[6], &[6, 5, 3], &[]],
        false,
        Err(Invariant::LearnerAndVoter),
        Some(Violation::LearnerAndVoter(5)),
    ),
    (
        [&[1], &[], &[], &[]],
        true,
        Err(Invariant::NotJointButAutoLeave),
        Some(Violation::NotJointButAutoLeave),
    ),
    ([&[1], &[], &[2], &[]], false, Ok(()), None),
    ([&[3], &[1], &[2], &[1]], true, Ok(()), None),
];

fn is_reported(
    config: &Config<TreeIds>,
    expected: Result<(), Invariant>,
    violation: Option<Violation>,
) -> bool {
    (check(config) == expected) & (first_violation(config) == violation)
}

#[test]
fn reports_the_first_violation(rt: HostRuntime) {
    for (index, (sets, auto_leave, expected, violation)) in CHECKED.iter().enumerate() {
        let config = config_of(&rt, *sets, *auto_leave);
        assert!(rt; is_reported(&config, *expected, *violation), "row {index}");
    }
}

const ONE: Sets = [&[3], &[1], &[2], &[1]];

// Configurations that differ from `ONE` with auto-leave in one set, or in the flag.
static OTHERS: [(Sets, bool); 5] = [
    ([&[3, 4], &[1], &[2], &[1]], true),
    ([&[3], &[1, 4], &[2], &[1]], true),
    ([&[3], &[1], &[], &[1]], true),
    ([&[3], &[1], &[2], &[]], true),
    (ONE, false),
];

// Whether a configuration equals the one with these sets and this flag; `None` if the two directions disagree.
fn is_same(
    rt: &impl Runtime,
    config: &Config<TreeIds>,
    sets: Sets,
    auto_leave: bool,
) -> Option<bool> {
    let other = config_of(rt, sets, auto_leave);
    let answer = config.same(&other);
    (answer == other.same(config)).then_some(answer)
}

// Whether a configuration equals one that is made in the same way, and none of the others.
fn equals_only_itself(rt: &impl Runtime) -> bool {
    let config = config_of(rt, ONE, true);
    let mut is_so = is_same(rt, &config, ONE, true) == Some(true);
    for (sets, auto_leave) in &OTHERS {
        is_so &= is_same(rt, &config, *sets, *auto_leave) == Some(false);
    }
    is_so
}

#[test]
fn compares_configurations(rt: HostRuntime) {
    assert!(rt; equals_only_itself(&rt));
}
