//! The tables and the JSON lines of paths, and whether the paths stall.
use crate::assertions::{holds, holds_at};
use crate::paths::{THREE, TWO_OF_FIVE, config_at, ids, path_between};
use conf_change::Config;
use conf_plan::{Path, Strategy};
use plan_output::{Output, add_no_plan_line, add_path, stalls};
use quorum_sets::{InlineIds, NoMemory};
use std::alloc::Global;
use test_support::restoring::FIVE;
use test_support::{appends, twice};

// The current configuration, the target, the strategy of the path, the ids that are down if there are any, the output
// and its text, and whether the path stalls with these ids down.
struct Row {
    now: &'static str,
    target: &'static str,
    strategy: Strategy,
    down: &'static [u64],
    output: Output,
    text: &'static str,
    stalls: bool,
}

// Five voters, in which 6 and 7 replace 4 and 5.
const OTHERS_OF_FIVE: &str =
    "Voters:[1 2 3 6 7] VotersOutgoing:[] Learners:[] LearnersNext:[] AutoLeave:false";

static ROWS: [Row; 19] = [
    Row {
        now: FIVE,
        target: TWO_OF_FIVE,
        strategy: Strategy::Shortest,
        down: &[],
        output: Output::Table,
        text: "step                                       1 2 3 4 5 6 7  majority           may be down  catch up  until then\n\
            now                                        V V V V V . .  3 of 5             2\n\
            1 enter-joint autoleave=false r1 r2 v6 v7  - - V V V + +  3 of 5 and 3 of 5  2            6 7       0\n\
            2 leave-joint                              . . V V V V V  3 of 5             2\n",
        stalls: false,
    },
    Row {
        now: FIVE,
        target: TWO_OF_FIVE,
        strategy: Strategy::LearnersFirst,
        down: &[],
        output: Output::Table,
        text: "step                                       1 2 3 4 5 6 7  majority           may be down  catch up  until then\n\
            now                                        V V V V V . .  3 of 5             2\n\
            1 simple l6 l7                             V V V V V L L  3 of 5             2            6 7       2\n\
            2 enter-joint autoleave=false r1 r2 v6 v7  - - V V V + +  3 of 5 and 3 of 5  2\n\
            3 leave-joint                              . . V V V V V  3 of 5             2\n",
        stalls: false,
    },
    Row {
        now: FIVE,
        target: TWO_OF_FIVE,
        strategy: Strategy::OneAtATime,
        down: &[],
        output: Output::Table,
        text: "step         1 2 3 4 5 6 7  majority  may be down  catch up  until then\n\
            now          V V V V V . .  3 of 5    2\n\
            1 simple l6  V V V V V L .  3 of 5    2            6         2\n\
            2 simple v6  V V V V V V .  4 of 6    2\n\
            3 simple r1  . V V V V V .  3 of 5    2\n\
            4 simple l7  . V V V V V L  3 of 5    2            7         2\n\
            5 simple v7  . V V V V V V  4 of 6    2\n\
            6 simple r2  . . V V V V V  3 of 5    2\n",
        stalls: false,
    },
    // Nothing commits until one of the new voters has caught up, even with all ids up.
    Row {
        now: "Voters:[1 2 3] VotersOutgoing:[] Learners:[] LearnersNext:[] AutoLeave:false",
        target: "Voters:[3 4 5] VotersOutgoing:[] Learners:[] LearnersNext:[] AutoLeave:false",
        strategy: Strategy::Shortest,
        down: &[],
        output: Output::Table,
        text: "step                                       1 2 3 4 5  majority           may be down  catch up  until then\n\
            now                                        V V V . .  2 of 3             1\n\
            1 enter-joint autoleave=false r1 r2 v4 v5  - - V + +  2 of 3 and 2 of 3  1            4 5       stalls\n\
            2 leave-joint                              . . V V V  2 of 3             1\n",
        stalls: true,
    },
    Row {
        now: FIVE,
        target: TWO_OF_FIVE,
        strategy: Strategy::Shortest,
        down: &[4],
        output: Output::Table,
        text: "step                                       1 2 3 4 5 6 7  majority           may be down  catch up  until then  besides 4\n\
            now                                        V V V V V . .  3 of 5             2                                  1\n\
            1 enter-joint autoleave=false r1 r2 v6 v7  - - V V V + +  3 of 5 and 3 of 5  2            6 7       0           stalls\n\
            2 leave-joint                              . . V V V V V  3 of 5             2                                  1\n",
        stalls: true,
    },
    // An outgoing voter that will learn; no member has to catch up.
    Row {
        now: "Voters:[3] VotersOutgoing:[1] Learners:[2] LearnersNext:[1] AutoLeave:false",
        target: "Voters:[1] VotersOutgoing:[] Learners:[2 3] LearnersNext:[] AutoLeave:false",
        strategy: Strategy::Shortest,
        down: &[],
        output: Output::Table,
        text: "step                                 1 2 3  majority           may be down  catch up  until then\n\
            now                                  ~ L +  1 of 1 and 1 of 1  0\n\
            1 leave-joint                        L L V  1 of 1             0\n\
            2 enter-joint autoleave=false v1 l3  + L ~  1 of 1 and 1 of 1  0\n\
            3 leave-joint                        V L L  1 of 1             0\n",
        stalls: false,
    },
    // No step: the headings, and the row of the current configuration. An id that is down but not a member makes no
    // difference, and one that is named twice counts once.
    Row {
        now: FIVE,
        target: FIVE,
        strategy: Strategy::LearnersFirst,
        down: &[9, 4, 9],
        output: Output::Table,
        text: "step  1 2 3 4 5  majority  may be down  catch up  until then  besides 4 9\n\
            now   V V V V V  3 of 5    2                                  1\n",
        stalls: false,
    },
    // Three of five are down.
    Row {
        now: FIVE,
        target: FIVE,
        strategy: Strategy::Shortest,
        down: &[1, 2, 3],
        output: Output::Table,
        text: "step  1 2 3 4 5  majority  may be down  catch up  until then  besides 1 2 3\n\
            now   V V V V V  3 of 5    2                                  stalls\n",
        stalls: true,
    },
    // The column of an id is as wide as the id.
    Row {
        now: "Voters:[9 10 999999] VotersOutgoing:[] Learners:[] LearnersNext:[] AutoLeave:false",
        target: "Voters:[9 10 11 999999] VotersOutgoing:[] Learners:[] LearnersNext:[] AutoLeave:false",
        strategy: Strategy::Shortest,
        down: &[],
        output: Output::Table,
        text: "step          9 10 11 999999  majority  may be down  catch up  until then\n\
            now           V  V  .      V  2 of 3    1\n\
            1 simple v11  V  V  V      V  3 of 4    1            11        0\n",
        stalls: false,
    },
    // One id has more than six digits, so all are called by numbers.
    Row {
        now: "Voters:[9 10 1000000] VotersOutgoing:[] Learners:[] LearnersNext:[] AutoLeave:false",
        target: "Voters:[9 10 11 1000000] VotersOutgoing:[] Learners:[] LearnersNext:[] AutoLeave:false",
        strategy: Strategy::Shortest,
        down: &[],
        output: Output::Table,
        text: "step          #1 #2 #3 #4  majority  may be down  catch up  until then\n\
            now            V  V  .  V  2 of 3    1\n\
            1 simple v#3   V  V  V  V  3 of 4    1            #3        0\n\
            \n\
            #1  9        9\n\
            #2  10       a\n\
            #3  11       b\n\
            #4  1000000  f4240\n",
        stalls: false,
    },
    // The ids of an etcd cluster, in which 4 replaces a server that is down.
    Row {
        now: "Voters:[10276657743932975437 10501334649042878790 18249187646912138824] VotersOutgoing:[] Learners:[] LearnersNext:[] AutoLeave:false",
        target: "Voters:[4 10501334649042878790 18249187646912138824] VotersOutgoing:[] Learners:[] LearnersNext:[] AutoLeave:false",
        strategy: Strategy::OneAtATime,
        down: &[10276657743932975437],
        output: Output::Table,
        text: "step          #1 #2 #3 #4  majority  may be down  catch up  until then  besides #2\n\
            now            .  V  V  V  2 of 3    1                                  0\n\
            1 simple r#2   .  .  V  V  2 of 2    0                                  0\n\
            2 simple l#1   L  .  V  V  2 of 2    0            #1        0           0\n\
            3 simple v#1   V  .  V  V  2 of 3    1                                  1\n\
            \n\
            #1  4                     4\n\
            #2  10276657743932975437  8e9e05c52164694d\n\
            #3  10501334649042878790  91bc3c398fb3c146\n\
            #4  18249187646912138824  fd422379fda50e48\n",
        stalls: false,
    },
    // With more than nine numbers, and several ids in a cell. An id that is down and has no column keeps its digits.
    Row {
        now: "Voters:[1 2 3 4 5 6 7 8] VotersOutgoing:[] Learners:[] LearnersNext:[] AutoLeave:false",
        target: "Voters:[1 2 3 4 5 6 7 8] VotersOutgoing:[] Learners:[9 18446744073709551615] LearnersNext:[] AutoLeave:false",
        strategy: Strategy::Shortest,
        down: &[2, 1, 7000000],
        output: Output::Table,
        text: "step               #1 #2 #3 #4 #5 #6 #7 #8 #9 #10  majority  may be down  catch up  until then  besides #1 #2 7000000\n\
            now                 V  V  V  V  V  V  V  V  .   .  5 of 8    3                                  1\n\
            1 simple l#9 l#10   V  V  V  V  V  V  V  V  L   L  5 of 8    3            #9 #10    3           1\n\
            \n\
            #1   1                     1\n\
            #2   2                     2\n\
            #3   3                     3\n\
            #4   4                     4\n\
            #5   5                     5\n\
            #6   6                     6\n\
            #7   7                     7\n\
            #8   8                     8\n\
            #9   9                     9\n\
            #10  18446744073709551615  ffffffffffffffff\n",
        stalls: false,
    },
    Row {
        now: FIVE,
        target: TWO_OF_FIVE,
        strategy: Strategy::LearnersFirst,
        down: &[],
        output: Output::Json,
        text: "{\"catch_up\":[6],\"conf_change\":{\"changes\":[{\"node_id\":6,\"type\":\"ConfChangeAddLearnerNode\"}],\"transition\":\"ConfChangeTransitionAuto\"},\"conf_state\":{\"auto_leave\":false,\"learners\":[6],\"learners_next\":[],\"voters\":[1,2,3,4,5],\"voters_outgoing\":[]},\"may_be_down\":2,\"plan\":1,\"step\":1,\"steps\":4,\"until_then\":2}\n\
            {\"catch_up\":[7],\"conf_change\":{\"changes\":[{\"node_id\":7,\"type\":\"ConfChangeAddLearnerNode\"}],\"transition\":\"ConfChangeTransitionAuto\"},\"conf_state\":{\"auto_leave\":false,\"learners\":[6,7],\"learners_next\":[],\"voters\":[1,2,3,4,5],\"voters_outgoing\":[]},\"may_be_down\":2,\"plan\":1,\"step\":2,\"steps\":4,\"until_then\":2}\n\
            {\"catch_up\":[],\"conf_change\":{\"changes\":[{\"node_id\":1,\"type\":\"ConfChangeRemoveNode\"},{\"node_id\":2,\"type\":\"ConfChangeRemoveNode\"},{\"node_id\":6,\"type\":\"ConfChangeAddNode\"},{\"node_id\":7,\"type\":\"ConfChangeAddNode\"}],\"transition\":\"ConfChangeTransitionJointExplicit\"},\"conf_state\":{\"auto_leave\":false,\"learners\":[],\"learners_next\":[],\"voters\":[3,4,5,6,7],\"voters_outgoing\":[1,2,3,4,5]},\"may_be_down\":2,\"plan\":1,\"step\":3,\"steps\":4,\"until_then\":2}\n\
            {\"catch_up\":[],\"conf_change\":{\"changes\":[],\"transition\":\"ConfChangeTransitionAuto\"},\"conf_state\":{\"auto_leave\":false,\"learners\":[],\"learners_next\":[],\"voters\":[3,4,5,6,7],\"voters_outgoing\":[]},\"may_be_down\":2,\"plan\":1,\"step\":4,\"steps\":4,\"until_then\":2}\n",
        stalls: false,
    },
    // Nothing commits until one of the new voters has caught up.
    Row {
        now: "Voters:[1 2 3] VotersOutgoing:[] Learners:[] LearnersNext:[] AutoLeave:false",
        target: "Voters:[3 4 5] VotersOutgoing:[1 2 3] Learners:[] LearnersNext:[] AutoLeave:true",
        strategy: Strategy::Shortest,
        down: &[9],
        output: Output::Json,
        text: "{\"catch_up\":[4,5],\"conf_change\":{\"changes\":[{\"node_id\":1,\"type\":\"ConfChangeRemoveNode\"},{\"node_id\":2,\"type\":\"ConfChangeRemoveNode\"},{\"node_id\":4,\"type\":\"ConfChangeAddNode\"},{\"node_id\":5,\"type\":\"ConfChangeAddNode\"}],\"transition\":\"ConfChangeTransitionJointImplicit\"},\"conf_state\":{\"auto_leave\":true,\"learners\":[],\"learners_next\":[],\"voters\":[3,4,5],\"voters_outgoing\":[1,2,3]},\"down\":[9],\"may_be_down\":1,\"may_be_down_besides\":null,\"plan\":1,\"stalls\":true,\"step\":1,\"steps\":1,\"until_then\":null}\n",
        stalls: true,
    },
    // A joint configuration of two equal sets: the change that is proposed names an update of the least voter.
    Row {
        now: "Voters:[2 3] VotersOutgoing:[] Learners:[] LearnersNext:[] AutoLeave:false",
        target: "Voters:[2 3] VotersOutgoing:[2 3] Learners:[] LearnersNext:[] AutoLeave:false",
        strategy: Strategy::Shortest,
        down: &[3],
        output: Output::Json,
        text: "{\"catch_up\":[],\"conf_change\":{\"changes\":[{\"node_id\":2,\"type\":\"ConfChangeUpdateNode\"}],\"transition\":\"ConfChangeTransitionJointExplicit\"},\"conf_state\":{\"auto_leave\":false,\"learners\":[],\"learners_next\":[],\"voters\":[2,3],\"voters_outgoing\":[2,3]},\"down\":[3],\"may_be_down\":0,\"may_be_down_besides\":null,\"plan\":1,\"stalls\":true,\"step\":1,\"steps\":1,\"until_then\":0}\n",
        stalls: true,
    },
    Row {
        now: FIVE,
        target: FIVE,
        strategy: Strategy::LearnersFirst,
        down: &[],
        output: Output::Json,
        text: "{\"plan\":1,\"steps\":0}\n",
        stalls: false,
    },
    Row {
        now: FIVE,
        target: OTHERS_OF_FIVE,
        strategy: Strategy::OneAtATime,
        down: &[4, 5],
        output: Output::Table,
        text: "step         1 2 3 4 5 6 7  majority  may be down  catch up  until then  besides 4 5\n\
            now          V V V V V . .  3 of 5    2                                  0\n\
            1 simple r4  V V V . V . .  3 of 4    1                                  0\n\
            2 simple r5  V V V . . . .  2 of 3    1                                  1\n\
            3 simple l6  V V V . . L .  2 of 3    1            6         1           1\n\
            4 simple v6  V V V . . V .  3 of 4    1                                  1\n\
            5 simple l7  V V V . . V L  3 of 4    1            7         1           1\n\
            6 simple v7  V V V . . V V  3 of 5    2                                  2\n",
        stalls: false,
    },
    Row {
        now: FIVE,
        target: OTHERS_OF_FIVE,
        strategy: Strategy::LearnersFirst,
        down: &[4, 5],
        output: Output::Table,
        text: "step                                       1 2 3 4 5 6 7  majority           may be down  catch up  until then  besides 4 5\n\
            now                                        V V V V V . .  3 of 5             2                                  0\n\
            1 simple l6 l7                             V V V V V L L  3 of 5             2            6 7       2           0\n\
            2 enter-joint autoleave=false r4 r5 v6 v7  V V V - - + +  3 of 5 and 3 of 5  2                                  0\n\
            3 leave-joint                              V V V . . V V  3 of 5             2                                  2\n",
        stalls: false,
    },
    // The current configuration stalls, and the path has no step. The ids that are down are listed in ascending order.
    Row {
        now: THREE,
        target: THREE,
        strategy: Strategy::Shortest,
        down: &[2, 1],
        output: Output::Json,
        text: "{\"down\":[1,2],\"plan\":1,\"stalls\":true,\"steps\":0}\n",
        stalls: true,
    },
];

// Whether a path is printed as in its row, and stalls as in its row.
fn is_printed(
    alloc: Global,
    row: &Row,
    now: &Config<InlineIds>,
    path: &Path,
    down: &InlineIds,
) -> bool {
    let named = if row.down.is_empty() {
        None
    } else {
        Some(down)
    };
    let prints = appends!(
        alloc,
        row.text,
        |text| add_path(alloc, text, row.output, 1, now, path, named)
    );
    prints & (twice!(NoMemory, stalls(alloc, now, path, down)) == Ok(row.stalls))
}

fn is_row(
    alloc: Global,
    row: &Row,
    now: &Config<InlineIds>,
    target: &Config<InlineIds>,
    down: &InlineIds,
) -> bool {
    match path_between(alloc, row.strategy, now, target, down) {
        Some(path) => is_printed(alloc, row, now, &path, down),
        None => false,
    }
}

fn is_row_over(alloc: Global, row: &Row) -> bool {
    let now = config_at(alloc, row.now);
    let target = config_at(alloc, row.target);
    let down = ids(alloc, row.down);
    is_row(alloc, row, &now, &target, &down)
}

fn is_no_plan_line(alloc: Global, number: u64, why: &str, expected: &str) -> bool {
    appends!(
        alloc,
        expected,
        |text| add_no_plan_line(alloc, text, number, why)
    )
}

#[test]
fn prints_paths(rt: HostRuntime) {
    for (index, row) in ROWS.iter().enumerate() {
        holds_at(&rt, index, is_row_over(rt.alloc(), row));
    }
}

#[test]
fn prints_lines_without_a_path(rt: HostRuntime) {
    let why = "the target is joint";
    let expected = "{\"no_plan\":\"the target is joint\",\"plan\":7}\n";
    holds(&rt, is_no_plan_line(rt.alloc(), 7, why, expected));
}
