//! The stages of a path.
use crate::ample::configurations::{Sets, config_of, set_of};
use crate::assertions::{holds, holds_at};
use crate::paths::shortest_path;
use conf_change::Config;
use plan_output::{Stage, stages};
use quorum_sets::InlineIds;
use test_support::equal::has_ids;
use test_support::runtime::Runtime;

// The configuration of a stage, who has to catch up, how many ids may be down, how many until then, and how many besides
// 3.
type Row = (
    Sets,
    &'static [u64],
    Option<usize>,
    Option<usize>,
    Option<usize>,
);

const NOW: Sets = [&[1, 2, 3], &[], &[], &[]];

const JOINT: Sets = [&[3, 4, 5], &[1, 2, 3], &[], &[]];

const TARGET: Sets = [&[3, 4, 5], &[], &[], &[]];

// The stages of the shortest path.
static ROWS: [Row; 3] = [
    (NOW, &[], Some(1), Some(1), Some(0)),
    (JOINT, &[4, 5], Some(1), None, None),
    (TARGET, &[], Some(1), Some(1), Some(0)),
];

fn has_config(rt: &impl Runtime, stage: &Stage, sets: Sets) -> bool {
    stage.config().same(&config_of(rt, sets, false))
}

fn may_be_down_besides_3(rt: &impl Runtime, stage: &Stage) -> Option<usize> {
    let three = set_of(rt, &[3]);
    stage.may_be_down_besides(&three).expect(rt, "a number")
}

fn is_stage(rt: &impl Runtime, stage: &Stage, row: &Row) -> bool {
    let (sets, catching_up, may_be_down, while_catching_up, besides) = row;
    has_config(rt, stage, *sets)
        & has_ids(stage.catching_up(), *catching_up)
        & (stage.may_be_down() == *may_be_down)
        & (stage.while_catching_up() == *while_catching_up)
        & (may_be_down_besides_3(rt, stage) == *besides)
}

// The stages of the shortest path.
fn stages_between(
    rt: &impl Runtime,
    now: &Config<InlineIds>,
    target: &Config<InlineIds>,
) -> Vec<Stage> {
    let path = shortest_path(rt.alloc(), now, target).expect(rt, "a path");
    stages(rt.alloc(), now, &path).expect(rt, "the stages")
}

#[test]
fn has_the_stages_of_a_path(rt: HostRuntime) {
    let now = config_of(&rt, NOW, false);
    let target = config_of(&rt, TARGET, false);
    let stages = stages_between(&rt, &now, &target);
    holds(&rt, stages.len() == ROWS.len());
    for (index, (stage, row)) in stages.iter().zip(&ROWS).enumerate() {
        holds_at(&rt, index, is_stage(&rt, stage, row));
    }
}
