//! What to do next: for each row of the table a view and the answer.
ghost use Rattle.std.specs.Prelude.{◌≡◌, true, IfOk};
ghost use Rattle.conf_change.specs.Configuration.{is_valid};

use crate::assertions::holds_at;
use crate::paths::{THREE, config_at, ids};
use crate::plans::is_step;
use conf_change::Config;
use conf_driver::{Action, MemberView, NextFault, StuckReason, View, WaitReason, next};
use conf_plan::Strategy;
use quorum_sets::{InlineIds, NoMemory};
use std::alloc::Global;
use test_support::equal::has_ids;
use test_support::twice;

// What is expected.
#[derive(Clone, Copy)]
enum Answer {
    Start(&'static [u64]),
    Stop(&'static [u64]),
    Transfer(u64),
    // The command and the changes of the step.
    Propose(&'static str, &'static str),
    Wait(WaitReason, &'static [u64]),
    Stuck(StuckReason, &'static [u64]),
    Done,
    Fault(NextFault),
}

// A view of a cluster, and the answer.
#[derive(Clone, Copy)]
struct Row {
    strategy: Strategy,
    now: &'static str,
    target: &'static str,
    down: &'static [u64],
    conf_index: u64,
    lead: u64,
    commit: u64,
    pending: u64,
    max_lag: u64,
    // The members: the id, the last index, and whether it is heard from.
    members: &'static [(u64, u64, bool)],
    running: &'static [u64],
    retired: &'static [u64],
    answer: Answer,
}

const ONE_TWO: &str = "Voters:[1 2] VotersOutgoing:[] Learners:[] LearnersNext:[] AutoLeave:false";

const TWO_THREE: &str =
    "Voters:[2 3] VotersOutgoing:[] Learners:[] LearnersNext:[] AutoLeave:false";

const TARGET: &str = "Voters:[1 2 4] VotersOutgoing:[] Learners:[] LearnersNext:[] AutoLeave:false";

const LEARNING: &str =
    "Voters:[1 2 3] VotersOutgoing:[] Learners:[4] LearnersNext:[] AutoLeave:false";

const JOINT: &str =
    "Voters:[1 2 4] VotersOutgoing:[1 2 3] Learners:[] LearnersNext:[] AutoLeave:false";

const LEAVING: &str =
    "Voters:[1 2 4] VotersOutgoing:[1 2 3] Learners:[] LearnersNext:[] AutoLeave:true";

// From (1 2 3) to (1 2 4), where 1 leads and all have all.
const PLAIN: Row = Row {
    strategy: Strategy::LearnersFirst,
    now: THREE,
    target: TARGET,
    down: &[],
    conf_index: 5,
    lead: 1,
    commit: 9,
    pending: 0,
    max_lag: 0,
    members: &[(1, 9, true), (2, 9, true), (3, 9, true), (4, 9, true)],
    running: &[1, 2, 3, 4],
    retired: &[],
    answer: Answer::Propose("simple", "l4"),
};

static ROWS: [Row; 41] = [
    // 1
    Row {
        down: &[2, 3],
        answer: Answer::Stuck(StuckReason::QuorumLost, &[2, 3]),
        ..PLAIN
    },
    // 2
    Row {
        down: &[3],
        answer: Answer::Wait(WaitReason::Heard, &[3]),
        ..PLAIN
    },
    // 3
    Row {
        lead: 0,
        members: &[(1, 9, true), (2, 9, true), (3, 9, false)],
        answer: Answer::Wait(WaitReason::NoLeader, &[3]),
        ..PLAIN
    },
    // 4: a leader that was removed cannot add the entry after the change, whose index is 5
    Row {
        now: ONE_TWO,
        target: ONE_TWO,
        lead: 3,
        commit: 4,
        members: &[(1, 4, true), (2, 4, true)],
        answer: Answer::Transfer(1),
        ..PLAIN
    },
    Row {
        now: ONE_TWO,
        target: ONE_TWO,
        lead: 3,
        pending: 4,
        members: &[(1, 3, true), (2, 3, true)],
        answer: Answer::Wait(WaitReason::Behind, &[1, 2]),
        ..PLAIN
    },
    Row {
        now: ONE_TWO,
        target: ONE_TWO,
        lead: 3,
        members: &[(1, 3, true)],
        answer: Answer::Wait(WaitReason::Unheard, &[2]),
        ..PLAIN
    },
    // 5
    Row {
        now: JOINT,
        lead: 3,
        pending: 8,
        answer: Answer::Transfer(1),
        ..PLAIN
    },
    Row {
        lead: 3,
        pending: 10,
        answer: Answer::Transfer(1),
        ..PLAIN
    },
    // 6
    Row {
        pending: 10,
        members: &[(1, 10, true), (2, 9, true), (3, 10, true)],
        answer: Answer::Wait(WaitReason::Pending, &[2]),
        ..PLAIN
    },
    Row {
        pending: 9,
        answer: Answer::Wait(WaitReason::Pending, &[1]),
        ..PLAIN
    },
    // 7
    Row {
        target: "Voters:[3 4] VotersOutgoing:[] Learners:[] LearnersNext:[] AutoLeave:false",
        down: &[4],
        members: &[(1, 9, true), (2, 9, true), (3, 9, true)],
        answer: Answer::Stuck(StuckReason::Stalls, &[4]),
        ..PLAIN
    },
    // 8
    Row {
        running: &[1, 2, 3],
        retired: &[4],
        answer: Answer::Stuck(StuckReason::Reused, &[4]),
        ..PLAIN
    },
    Row {
        now: LEARNING,
        running: &[1, 2, 3],
        retired: &[4],
        answer: Answer::Stuck(StuckReason::Reused, &[4]),
        ..PLAIN
    },
    // 9
    Row {
        running: &[1, 2, 3],
        answer: Answer::Start(&[4]),
        ..PLAIN
    },
    Row {
        now: LEARNING,
        target: THREE,
        running: &[1, 2, 3],
        answer: Answer::Propose("simple", "r4"),
        ..PLAIN
    },
    // 10
    Row {
        now: ONE_TWO,
        target: ONE_TWO,
        running: &[1, 2, 3],
        answer: Answer::Stop(&[3]),
        ..PLAIN
    },
    Row {
        now: ONE_TWO,
        target: ONE_TWO,
        members: &[(1, 9, true), (2, 4, true)],
        running: &[1, 2, 3],
        answer: Answer::Wait(WaitReason::Behind, &[2]),
        ..PLAIN
    },
    Row {
        now: ONE_TWO,
        target: ONE_TWO,
        members: &[(1, 9, true), (2, 9, false)],
        running: &[1, 2, 3],
        answer: Answer::Wait(WaitReason::Unheard, &[2]),
        ..PLAIN
    },
    Row {
        now: LEARNING,
        target: LEARNING,
        members: &[(1, 9, true), (2, 9, true), (3, 9, true), (4, 4, true)],
        running: &[1, 2, 3, 4, 5],
        answer: Answer::Wait(WaitReason::Behind, &[4]),
        ..PLAIN
    },
    // 11
    Row {
        now: LEAVING,
        members: &[(1, 9, true), (2, 9, true), (3, 4, true), (4, 9, true)],
        answer: Answer::Wait(WaitReason::Leaving, &[3]),
        ..PLAIN
    },
    // 12
    Row {
        now: JOINT,
        lead: 3,
        answer: Answer::Transfer(1),
        ..PLAIN
    },
    Row {
        strategy: Strategy::OneAtATime,
        target: TWO_THREE,
        running: &[1, 2, 3],
        answer: Answer::Transfer(2),
        ..PLAIN
    },
    // 13
    Row {
        strategy: Strategy::OneAtATime,
        target: TWO_THREE,
        members: &[(1, 9, true), (2, 8, true), (3, 8, true)],
        running: &[1, 2, 3],
        answer: Answer::Wait(WaitReason::Behind, &[2, 3]),
        ..PLAIN
    },
    // 14
    Row {
        target: THREE,
        down: &[3],
        members: &[(1, 9, true), (2, 9, true)],
        running: &[1, 2, 3],
        answer: Answer::Done,
        ..PLAIN
    },
    Row {
        target: THREE,
        members: &[(1, 9, true), (2, 9, true)],
        running: &[1, 2, 3],
        answer: Answer::Wait(WaitReason::Unheard, &[3]),
        ..PLAIN
    },
    // 15
    Row {
        now: LEARNING,
        commit: 60,
        members: &[(1, 60, true), (2, 60, true), (3, 60, true), (4, 17, true)],
        answer: Answer::Wait(WaitReason::Behind, &[4]),
        ..PLAIN
    },
    Row {
        now: LEARNING,
        commit: 60,
        max_lag: 8,
        members: &[(1, 60, true), (2, 60, true), (3, 60, true), (4, 52, true)],
        answer: Answer::Propose("enter-joint autoleave=false", "r3 v4"),
        ..PLAIN
    },
    Row {
        strategy: Strategy::OneAtATime,
        now: "Voters:[1 2] VotersOutgoing:[] Learners:[3] LearnersNext:[] AutoLeave:false",
        target: THREE,
        members: &[(1, 9, true), (2, 9, true)],
        running: &[1, 2, 3],
        answer: Answer::Wait(WaitReason::Unheard, &[3]),
        ..PLAIN
    },
    // 16
    Row {
        now: LEARNING,
        members: &[(1, 9, true), (2, 9, true), (3, 4, true), (4, 9, true)],
        answer: Answer::Wait(WaitReason::Behind, &[3]),
        ..PLAIN
    },
    // 17
    Row {
        strategy: Strategy::OneAtATime,
        target: "Voters:[1 2 3 4] VotersOutgoing:[] Learners:[] LearnersNext:[] AutoLeave:false",
        members: &[(1, 9, true), (2, 9, false), (3, 9, false)],
        answer: Answer::Wait(WaitReason::Unheard, &[2, 3]),
        ..PLAIN
    },
    // 18
    Row {
        now: LEARNING,
        members: &[(1, 9, true), (2, 9, true), (3, 9, false), (4, 9, true)],
        answer: Answer::Wait(WaitReason::Unheard, &[3]),
        ..PLAIN
    },
    // 19
    PLAIN,
    Row {
        now: LEARNING,
        answer: Answer::Propose("enter-joint autoleave=false", "r3 v4"),
        ..PLAIN
    },
    // An outgoing voter is not waited for.
    Row {
        now: JOINT,
        members: &[(1, 9, true), (2, 9, true), (3, 4, true), (4, 9, true)],
        answer: Answer::Propose("leave-joint", ""),
        ..PLAIN
    },
    // No answer.
    Row {
        strategy: Strategy::Shortest,
        answer: Answer::Fault(NextFault::Shortest),
        ..PLAIN
    },
    Row {
        target: LEAVING,
        answer: Answer::Fault(NextFault::AutoLeaveTarget),
        ..PLAIN
    },
    Row {
        conf_index: 0,
        answer: Answer::Fault(NextFault::NoConfIndex),
        ..PLAIN
    },
    Row {
        members: &[(2, 9, true), (3, 9, true)],
        answer: Answer::Fault(NextFault::NoLeaderProgress),
        ..PLAIN
    },
    Row {
        now: "Voters:[] VotersOutgoing:[] Learners:[] LearnersNext:[] AutoLeave:false",
        answer: Answer::Fault(NextFault::NoVoterNow),
        ..PLAIN
    },
    Row {
        target: "Voters:[] VotersOutgoing:[] Learners:[] LearnersNext:[] AutoLeave:false",
        answer: Answer::Fault(NextFault::NoVoterTarget),
        ..PLAIN
    },
    Row {
        strategy: Strategy::OneAtATime,
        target: JOINT,
        answer: Answer::Fault(NextFault::JointTarget),
        ..PLAIN
    },
];

fn members_of(alloc: Global, list: &[(u64, u64, bool)]) -> Result<Vec<MemberView>, NoMemory> {
    let mut members = Vec::new(alloc);
    for (id, matched, recent_active) in list {
        members.push(MemberView {
            id: *id,
            matched: *matched,
            recent_active: *recent_active,
        })?;
    }
    Ok(members)
}

fn view_of(alloc: Global, row: &Row) -> Result<View, NoMemory>
    ensures { IfOk result (λ view. is_valid view.conf_state ≡ true) }
{
    let progress = members_of(alloc, row.members)?;
    Ok(View {
        conf_state: config_at(alloc, row.now),
        conf_index: row.conf_index,
        lead: row.lead,
        commit: row.commit,
        pending_conf_index: row.pending,
        progress,
        running: ids(alloc, row.running),
        retired: ids(alloc, row.retired),
        max_lag: row.max_lag,
    })
}

fn is_answer(alloc: Global, action: &Action, expected: Answer) -> bool {
    match (action, expected) {
        (Action::Start(ids), Answer::Start(list)) => has_ids(ids, list),
        (Action::Stop(ids), Answer::Stop(list)) => has_ids(ids, list),
        (Action::Transfer(id), Answer::Transfer(to)) => *id == to,
        (Action::Propose(step), Answer::Propose(command, changes)) => {
            is_step(alloc, Some(step), command, changes)
        }
        (Action::Wait(why, ids), Answer::Wait(reason, list)) => {
            (*why == reason) & has_ids(ids, list)
        }
        (Action::Stuck(why, ids), Answer::Stuck(reason, list)) => {
            (*why == reason) & has_ids(ids, list)
        }
        (Action::Done, Answer::Done) => true,
        _ => false,
    }
}

fn is_fault(fault: NextFault, expected: Answer) -> bool {
    match expected {
        Answer::Fault(expected) => fault == expected,
        _ => false,
    }
}

fn is_next(
    alloc: Global,
    row: &Row,
    target: &Config<InlineIds>,
    down: &InlineIds,
    view: &View,
) -> bool
    requires valid_now { is_valid view.now.conf_state ≡ true }
    requires valid_target { is_valid target.now ≡ true }
{
    match twice!(
        NextFault::NoMemory,
        next(alloc, row.strategy, target, down, view)
    ) {
        Ok(action) => is_answer(alloc, &action, row.answer),
        Err(fault) => is_fault(fault, row.answer),
    }
}

fn is_next_to(alloc: Global, row: &Row, target: &Config<InlineIds>, down: &InlineIds) -> bool
    requires { is_valid target.now ≡ true }
{
    match twice!(NoMemory, view_of(alloc, row)) {
        Ok(view) => is_next(alloc, row, target, down, &view),
        Err(_) => false,
    }
}

fn is_row(alloc: Global, row: &Row) -> bool {
    let target = config_at(alloc, row.target);
    let down = ids(alloc, row.down);
    is_next_to(alloc, row, &target, &down)
}

#[test]
fn decides_by_each_row(rt: HostRuntime) {
    for (index, row) in ROWS.iter().enumerate() {
        holds_at(&rt, index, is_row(rt.alloc(), row));
    }
}
