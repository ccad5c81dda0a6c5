//! Paths that are made while ids are down, and paths of one change each.
use crate::ample::configurations::{Sets, config_of, set_of};
use crate::assertions::holds_at;
use crate::paths::{is_printed, path_between};
use conf_change::Config;
use conf_plan::{Path, Strategy};
use quorum_sets::TreeIds;
use test_support::runtime::Runtime;

// A strategy, a configuration, a target, the ids that are down, the lines of the path, and those of one change each.
type Row = (
    Strategy,
    Sets,
    Sets,
    &'static [u64],
    &'static str,
    &'static str,
);

const THREE: Sets = [&[1, 2, 3], &[], &[], &[]];

const FIVE: Sets = [&[1, 2, 3, 4, 5], &[], &[], &[]];

const LAST_TWO_REPLACED: Sets = [&[1, 2, 3, 6, 7], &[], &[], &[]];

const FIRST_TWO_REPLACED: Sets = [&[3, 4, 5], &[], &[], &[]];

static ROWS: [Row; 10] = [
    // Both failed voters leave before anything is added.
    (
        Strategy::OneAtATime,
        FIVE,
        LAST_TWO_REPLACED,
        &[4, 5],
        "simple r4\nsimple r5\nsimple l6\nsimple v6\nsimple l7\nsimple v7\n",
        "simple r4\nsimple r5\nsimple l6\nsimple v6\nsimple l7\nsimple v7\n",
    ),
    // One of those that leave is down.
    (
        Strategy::OneAtATime,
        THREE,
        FIRST_TWO_REPLACED,
        &[2],
        "simple r2\nsimple l4\nsimple v4\nsimple r1\nsimple l5\nsimple v5\n",
        "simple r2\nsimple l4\nsimple v4\nsimple r1\nsimple l5\nsimple v5\n",
    ),
    // The current configuration does not commit without those that are down, so they take turns.
    (
        Strategy::OneAtATime,
        THREE,
        FIRST_TWO_REPLACED,
        &[1, 2],
        "simple l4\nsimple v4\nsimple r1\nsimple l5\nsimple v5\nsimple r2\n",
        "simple l4\nsimple v4\nsimple r1\nsimple l5\nsimple v5\nsimple r2\n",
    ),
    // The target does not commit without those that are down.
    (
        Strategy::OneAtATime,
        THREE,
        FIRST_TWO_REPLACED,
        &[4, 5],
        "simple l4\nsimple v4\nsimple r1\nsimple l5\nsimple v5\nsimple r2\n",
        "simple l4\nsimple v4\nsimple r1\nsimple l5\nsimple v5\nsimple r2\n",
    ),
    // An id that is down joins last.
    (
        Strategy::OneAtATime,
        THREE,
        [&[2, 3, 4, 5], &[], &[], &[]],
        &[4],
        "simple l5\nsimple v5\nsimple r1\nsimple l4\nsimple v4\n",
        "simple l5\nsimple v5\nsimple r1\nsimple l4\nsimple v4\n",
    ),
    // A joint configuration is left first.
    (
        Strategy::OneAtATime,
        [&[1, 2, 3], &[1, 2, 4], &[], &[]],
        [&[1, 2, 5], &[], &[], &[]],
        &[3],
        "leave-joint\nsimple r3\nsimple l5\nsimple v5\n",
        "leave-joint\nsimple r3\nsimple l5\nsimple v5\n",
    ),
    // A voter that is down leaves first, then a learner, and then the new voter joins.
    (
        Strategy::OneAtATime,
        [&[1, 2, 3], &[], &[9], &[]],
        [&[1, 2, 4], &[], &[], &[]],
        &[3],
        "simple r3\nsimple r9\nsimple l4\nsimple v4\n",
        "simple r3\nsimple r9\nsimple l4\nsimple v4\n",
    ),
    // The other strategies do not look at the ids that are down.
    (
        Strategy::LearnersFirst,
        FIVE,
        LAST_TWO_REPLACED,
        &[4, 5],
        "simple l6 l7\nenter-joint autoleave=false r4 r5 v6 v7\nleave-joint\n",
        "simple l6\nsimple l7\nenter-joint autoleave=false r4 r5 v6 v7\nleave-joint\n",
    ),
    (
        Strategy::Shortest,
        THREE,
        [&[1, 2, 4], &[], &[3, 5], &[]],
        &[3],
        "enter-joint autoleave=false l3 v4 l5\nleave-joint\n",
        "enter-joint autoleave=false l3 v4 l5\nleave-joint\n",
    ),
    (
        Strategy::Shortest,
        THREE,
        [&[1, 2], &[], &[4, 5], &[]],
        &[],
        "simple r3 l4 l5\n",
        "simple r3\nsimple l4\nsimple l5\n",
    ),
];

fn path_from(
    rt: &impl Runtime,
    row: &Row,
    now: &Config<TreeIds>,
    target: &Config<TreeIds>,
) -> Path {
    let down = set_of(rt, row.3);
    path_between(rt.alloc(), row.0, now, target, &down).expect(rt, "a path")
}

fn path_of(rt: &impl Runtime, row: &Row) -> Path {
    let now = config_of(rt, row.1, false);
    let target = config_of(rt, row.2, false);
    path_from(rt, row, &now, &target)
}

// Whether the path has these lines, and the path of one change each has those.
fn is_path(rt: &impl Runtime, row: &Row) -> bool {
    let path = path_of(rt, row);
    let each = path.one_change_each(rt.alloc()).expect(rt, "a path");
    is_printed(rt.alloc(), &path, row.4) & is_printed(rt.alloc(), &each, row.5)
}

#[test]
fn makes_paths_while_ids_are_down(rt: HostRuntime) {
    for (index, row) in ROWS.iter().enumerate() {
        holds_at(&rt, index, is_path(&rt, row));
    }
}
