//! Paths by each strategy, and the members that have to catch up on the way.
ghost use Rattle.std.specs.Prelude.{◌≡◌, true};
ghost use Rattle.conf_change.specs.Configuration.{is_valid};

use crate::assertions::holds_at;
use conf_change::{Changer, Config, Refused, Step, check};
use conf_plan::{NoPath, Path, Strategy, catching_up, plan_by, print_path};
use quorum_sets::{InlineIds, MemberSet, NoMemory, TreeIds};
use std::alloc::Global;
use test_support::equal::has_ids;
use test_support::restoring::{FIVE, changer_at};
use test_support::{appends, twice};

// A path by a strategy: its text, and the ids that have to catch up after each step.
type Expected = (Strategy, &'static str, &'static [&'static [u64]]);

// The current configuration, the target, and paths from the one to the other.
type Row = (&'static str, &'static str, &'static [Expected]);

const ONE: &str = "Voters:[1] VotersOutgoing:[] Learners:[] LearnersNext:[] AutoLeave:false";

/// Three voters.
pub(crate) const THREE: &str =
    "Voters:[1 2 3] VotersOutgoing:[] Learners:[] LearnersNext:[] AutoLeave:false";

const TWO_OF_THREE: &str =
    "Voters:[3 4 5] VotersOutgoing:[] Learners:[] LearnersNext:[] AutoLeave:false";

/// Five voters, two of which are not among those of `FIVE`.
pub(crate) const TWO_OF_FIVE: &str =
    "Voters:[3 4 5 6 7] VotersOutgoing:[] Learners:[] LearnersNext:[] AutoLeave:false";

// 1 is an outgoing voter and a next learner, 2 is a learner, and 3 is a voter.
const JOINT: &str = "Voters:[3] VotersOutgoing:[1] Learners:[2] LearnersNext:[1] AutoLeave:false";

const LEARNERS: &str =
    "Voters:[1] VotersOutgoing:[] Learners:[2 3] LearnersNext:[] AutoLeave:false";

const GREATEST: &str =
    "Voters:[18446744073709551615] VotersOutgoing:[] Learners:[] LearnersNext:[] AutoLeave:false";

static ROWS: [Row; 13] = [
    (
        FIVE,
        TWO_OF_FIVE,
        &[
            (
                Strategy::Shortest,
                "enter-joint autoleave=false r1 r2 v6 v7\nleave-joint\n",
                &[&[6, 7], &[]],
            ),
            (
                Strategy::LearnersFirst,
                "simple l6 l7\nenter-joint autoleave=false r1 r2 v6 v7\nleave-joint\n",
                &[&[6, 7], &[], &[]],
            ),
            (
                Strategy::OneAtATime,
                "simple l6\nsimple v6\nsimple r1\nsimple l7\nsimple v7\nsimple r2\n",
                &[&[6], &[], &[], &[7], &[], &[]],
            ),
        ],
    ),
    (
        THREE,
        TWO_OF_THREE,
        &[
            (
                Strategy::Shortest,
                "enter-joint autoleave=false r1 r2 v4 v5\nleave-joint\n",
                &[&[4, 5], &[]],
            ),
            (
                Strategy::LearnersFirst,
                "simple l4 l5\nenter-joint autoleave=false r1 r2 v4 v5\nleave-joint\n",
                &[&[4, 5], &[], &[]],
            ),
            (
                Strategy::OneAtATime,
                "simple l4\nsimple v4\nsimple r1\nsimple l5\nsimple v5\nsimple r2\n",
                &[&[4], &[], &[], &[5], &[], &[]],
            ),
        ],
    ),
    (
        JOINT,
        LEARNERS,
        &[
            (
                Strategy::Shortest,
                "leave-joint\nenter-joint autoleave=false v1 l3\nleave-joint\n",
                &[&[], &[], &[]],
            ),
            (
                Strategy::LearnersFirst,
                "leave-joint\nenter-joint autoleave=false v1 l3\nleave-joint\n",
                &[&[], &[], &[]],
            ),
            (
                Strategy::OneAtATime,
                "leave-joint\nsimple v1\nsimple l3\n",
                &[&[], &[], &[]],
            ),
        ],
    ),
    (
        "Voters:[1] VotersOutgoing:[2] Learners:[] LearnersNext:[] AutoLeave:false",
        "Voters:[4] VotersOutgoing:[1] Learners:[] LearnersNext:[] AutoLeave:false",
        &[(
            Strategy::LearnersFirst,
            "leave-joint\nsimple l4\nenter-joint autoleave=false r1 v4\n",
            &[&[], &[4], &[]],
        )],
    ),
    (FIVE, FIVE, &[(Strategy::Shortest, "nothing to do\n", &[])]),
    (
        JOINT,
        JOINT,
        &[
            (Strategy::LearnersFirst, "nothing to do\n", &[]),
            (Strategy::OneAtATime, "nothing to do\n", &[]),
        ],
    ),
    (
        TWO_OF_FIVE,
        "Voters:[3 4 5 6] VotersOutgoing:[] Learners:[7] LearnersNext:[] AutoLeave:false",
        &[(Strategy::LearnersFirst, "simple l7\n", &[&[]])],
    ),
    (
        ONE,
        GREATEST,
        &[
            (
                Strategy::LearnersFirst,
                "simple l18446744073709551615\n\
                enter-joint autoleave=false r1 v18446744073709551615\n\
                leave-joint\n",
                &[&[18446744073709551615], &[], &[]],
            ),
            (
                Strategy::OneAtATime,
                "simple l18446744073709551615\nsimple v18446744073709551615\nsimple r1\n",
                &[&[18446744073709551615], &[], &[]],
            ),
        ],
    ),
    // More voters retire than join. One of those that retire becomes a learner; one of those that join is a learner
    // already.
    (
        "Voters:[1 2 3 4] VotersOutgoing:[] Learners:[5 6] LearnersNext:[] AutoLeave:false",
        "Voters:[1 5 7] VotersOutgoing:[] Learners:[2 6] LearnersNext:[] AutoLeave:false",
        &[(
            Strategy::OneAtATime,
            "simple v5\nsimple l2\nsimple l7\nsimple v7\nsimple r3\nsimple r4\n",
            &[&[], &[], &[7], &[], &[], &[]],
        )],
    ),
    // More voters join than retire.
    (
        "Voters:[2] VotersOutgoing:[] Learners:[] LearnersNext:[] AutoLeave:false",
        "Voters:[1 3] VotersOutgoing:[] Learners:[] LearnersNext:[] AutoLeave:false",
        &[(
            Strategy::OneAtATime,
            "simple l1\nsimple v1\nsimple r2\nsimple l3\nsimple v3\n",
            &[&[1], &[], &[], &[3], &[]],
        )],
    ),
    // A learner leaves before a new voter joins.
    (
        "Voters:[1 2 3] VotersOutgoing:[] Learners:[9] LearnersNext:[] AutoLeave:false",
        "Voters:[1 2 3 4] VotersOutgoing:[] Learners:[] LearnersNext:[] AutoLeave:false",
        &[(
            Strategy::OneAtATime,
            "simple r9\nsimple l4\nsimple v4\n",
            &[&[], &[4], &[]],
        )],
    ),
    // A learner is promoted before a new voter joins.
    (
        "Voters:[1 2 3] VotersOutgoing:[] Learners:[9] LearnersNext:[] AutoLeave:false",
        "Voters:[1 2 3 4 9] VotersOutgoing:[] Learners:[] LearnersNext:[] AutoLeave:false",
        &[(
            Strategy::OneAtATime,
            "simple v9\nsimple l4\nsimple v4\n",
            &[&[], &[4], &[]],
        )],
    ),
    // Only learners are added and removed.
    (
        "Voters:[1 2 3] VotersOutgoing:[] Learners:[4 6] LearnersNext:[] AutoLeave:false",
        "Voters:[1 2 3] VotersOutgoing:[] Learners:[5 6 7] LearnersNext:[] AutoLeave:false",
        &[(
            Strategy::OneAtATime,
            "simple r4\nsimple l5\nsimple l7\n",
            &[&[], &[5], &[7]],
        )],
    ),
];

/// The configuration of a line; an empty one if the line has none.
pub(crate) fn config_at<S: MemberSet>(alloc: Global, line: &str) -> Config<S>
    ensures { is_valid result ≡ true }
{
    let mut changer = changer_at(alloc, line);
    changer.take_config()
}

/// The set of some ids; an empty one if memory ran out twice, so that its row fails without a branch for it.
pub(crate) fn ids(alloc: Global, ids: &[u64]) -> InlineIds {
    match twice!(NoMemory, InlineIds::of_list(alloc, ids)) {
        Ok(set) => set,
        Err(_) => InlineIds::empty(alloc),
    }
}

// The path by a strategy, made while these ids are down.
fn path_of<S: MemberSet>(
    alloc: Global,
    strategy: Strategy,
    now: &Config<S>,
    target: &Config<S>,
    down: &S,
) -> Result<Path, NoPath>
    requires now { is_valid now.now ≡ true }
    requires target { is_valid target.now ≡ true }
{
    twice!(
        NoPath::NoMemory,
        plan_by(alloc, strategy, now, target, Some(down))
    )
}

/// The path by a strategy between valid configurations, if there is one.
pub(crate) fn path_between<S: MemberSet>(
    alloc: Global,
    strategy: Strategy,
    now: &Config<S>,
    target: &Config<S>,
    down: &S,
) -> Option<Path> {
    if check(now).is_ok() && check(target).is_ok() {
        path_of(alloc, strategy, now, target, down).ok()
    } else {
        None
    }
}

/// The shortest path between valid configurations, if there is one.
pub(crate) fn shortest_path<S: MemberSet>(
    alloc: Global,
    now: &Config<S>,
    target: &Config<S>,
) -> Option<Path> {
    path_between(alloc, Strategy::Shortest, now, target, &S::empty(alloc))
}

fn is_accepted<S: MemberSet>(changer: &mut Changer<S>, step: &Step) -> bool {
    twice!(Refused::NoMemory, changer.step(step)).is_ok()
}

// Whether these ids have to catch up after a step.
fn catch_up<S: MemberSet>(
    alloc: Global,
    before: &Config<S>,
    step: &Step,
    after: &Config<S>,
    expected: &[u64],
) -> bool {
    match twice!(NoMemory, catching_up(alloc, before, step, after)) {
        Ok(ids) => has_ids(&ids, expected),
        Err(_) => false,
    }
}

// Whether the changer accepts a step, and these ids have to catch up then.
fn is_step<S: MemberSet>(
    alloc: Global,
    changer: &mut Changer<S>,
    step: &Step,
    expected: &[u64],
) -> bool {
    match twice!(NoMemory, changer.tracker().config().try_clone()) {
        Ok(before) => {
            is_accepted(changer, step)
                & catch_up(alloc, &before, step, changer.tracker().config(), expected)
        }
        Err(_) => false,
    }
}

/// Whether a path is printed as this text.
pub(crate) fn is_printed(alloc: Global, path: &Path, expected: &str) -> bool {
    appends!(alloc, expected, |text| print_path(text, path))
}

// Whether a path is printed as its text, and the changer accepts its steps.
fn has_steps<S: MemberSet>(
    alloc: Global,
    changer: &mut Changer<S>,
    path: &Path,
    expected: &Expected,
) -> bool {
    let (_, text, ids) = expected;
    let mut is_so = (path.len() == ids.len()) & is_printed(alloc, path, *text);
    for (index, ids) in ids.iter().enumerate() {
        is_so &= match path.step(index) {
            Some(step) => is_step(alloc, changer, step, *ids),
            None => false,
        };
    }
    is_so
}

fn leads<S: MemberSet>(
    alloc: Global,
    changer: &mut Changer<S>,
    target: &Config<S>,
    expected: &Expected,
) -> bool {
    let none_down = S::empty(alloc);
    let now = changer.tracker().config();
    match path_between(alloc, expected.0, now, target, &none_down) {
        Some(path) => {
            has_steps(alloc, changer, &path, expected) & changer.tracker().config().same(target)
        }
        None => false,
    }
}

fn is_path<S: MemberSet>(alloc: Global, row: &Row, expected: &Expected) -> bool {
    let mut changer = changer_at::<S>(alloc, row.0);
    let target = config_at::<S>(alloc, row.1);
    leads(alloc, &mut changer, &target, expected)
}

#[test]
fn makes_paths_by_each_strategy(rt: HostRuntime) {
    for (index, row) in ROWS.iter().enumerate() {
        for expected in row.2 {
            holds_at(
                &rt,
                index,
                is_path::<TreeIds>(rt.alloc(), row, expected)
                    & is_path::<InlineIds>(rt.alloc(), row, expected),
            );
        }
    }
}
