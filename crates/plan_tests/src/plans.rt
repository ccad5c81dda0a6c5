//! Plans: made, applied, printed and read.
ghost use Rattle.std.specs.Prelude.{◌≡◌, true};
ghost use Rattle.conf_change.specs.Configuration.{is_valid};

use crate::assertions::holds_at;
use crate::paths;
use crate::paths::{config_at, shortest_path};
use conf_change::{Changer, Config, Refused, Step};
use conf_plan::{
    Path, Plan, PlanFault, PlanTextFault, StepRefused, apply_plan, changes_text, command_text,
    plan, print_plan, read_path, read_plan,
};
use quorum_sets::{InlineIds, MemberSet, NoMemory, TreeIds};
use std::alloc::Global;
use test_support::equal::has_steps;
use test_support::restoring::changer_at;
use test_support::shown::{Shown, TEN, is_shown};
use test_support::{appends, twice};

// A changer's configuration, the indexes that its members acknowledge, the target, the plan's text, and what is printed
// before its first step and after each.
struct Row {
    now: &'static str,
    acknowledged: &'static [(u64, u64)],
    target: &'static str,
    plan: &'static str,
    shown: &'static [Shown],
}

static ROWS: [Row; 5] = [
    Row {
        now: "Voters:[3] VotersOutgoing:[] Learners:[1 2] LearnersNext:[] AutoLeave:false",
        acknowledged: &[],
        target: "Voters:[3] VotersOutgoing:[1] Learners:[2] LearnersNext:[1] AutoLeave:false",
        plan: "enter-joint autoleave=false v1 l3\n\
            leave-joint\n\
            enter-joint autoleave=false l1 v3\n",
        shown: &[
            (
                "voters=(3) learners=(1 2)",
                &[
                    "1: StateProbe match=0 next=1 learner",
                    "2: StateProbe match=0 next=1 learner",
                    "3: StateProbe match=0 next=1",
                ],
            ),
            (
                "voters=(1)&&(3) learners=(2) learners_next=(3)",
                &[
                    "1: StateProbe match=0 next=1",
                    "2: StateProbe match=0 next=1 learner",
                    "3: StateProbe match=0 next=1",
                ],
            ),
            (
                "voters=(1) learners=(2 3)",
                &[
                    "1: StateProbe match=0 next=1",
                    "2: StateProbe match=0 next=1 learner",
                    "3: StateProbe match=0 next=1 learner",
                ],
            ),
            (
                "voters=(3)&&(1) learners=(2) learners_next=(1)",
                &[
                    "1: StateProbe match=0 next=1",
                    "2: StateProbe match=0 next=1 learner",
                    "3: StateProbe match=0 next=1",
                ],
            ),
        ],
    },
    Row {
        now: "Voters:[3] VotersOutgoing:[2] Learners:[] LearnersNext:[] AutoLeave:false",
        acknowledged: &[],
        target: "Voters:[2] VotersOutgoing:[1] Learners:[] LearnersNext:[] AutoLeave:false",
        plan: "leave-joint\n\
            enter-joint autoleave=false v1 r3\n\
            leave-joint\n\
            enter-joint autoleave=false r1 v2\n",
        shown: &[
            (
                "voters=(3)&&(2)",
                &[
                    "2: StateProbe match=0 next=1",
                    "3: StateProbe match=0 next=1",
                ],
            ),
            ("voters=(3)", &["3: StateProbe match=0 next=1"]),
            (
                "voters=(1)&&(3)",
                &[
                    "1: StateProbe match=0 next=1",
                    "3: StateProbe match=0 next=1",
                ],
            ),
            ("voters=(1)", &["1: StateProbe match=0 next=1"]),
            (
                "voters=(2)&&(1)",
                &[
                    "1: StateProbe match=0 next=1",
                    "2: StateProbe match=0 next=1",
                ],
            ),
        ],
    },
    Row {
        now: "Voters:[1 2 3 4 5 6 7 8 9 10] VotersOutgoing:[1] Learners:[] LearnersNext:[] AutoLeave:false",
        acknowledged: &[],
        target: "Voters:[1] VotersOutgoing:[] Learners:[] LearnersNext:[] AutoLeave:false",
        plan: "leave-joint\n\
            enter-joint autoleave=false r2 r3 r4 r5 r6 r7 r8 r9 r10\n\
            leave-joint\n",
        shown: &[
            ("voters=(1 2 3 4 5 6 7 8 9 10)&&(1)", TEN),
            ("voters=(1 2 3 4 5 6 7 8 9 10)", TEN),
            ("voters=(1)&&(1 2 3 4 5 6 7 8 9 10)", TEN),
            ("voters=(1)", &["1: StateProbe match=0 next=1"]),
        ],
    },
    Row {
        now: "Voters:[1] VotersOutgoing:[] Learners:[] LearnersNext:[] AutoLeave:false",
        acknowledged: &[],
        target: "Voters:[1] VotersOutgoing:[] Learners:[] LearnersNext:[] AutoLeave:false",
        plan: "nothing to do\n",
        shown: &[("voters=(1)", &["1: StateProbe match=0 next=1"])],
    },
    // 1, 2 and 5 are members throughout, and keep what they have acknowledged. 3 is fresh when it comes back.
    Row {
        now: "Voters:[1 2] VotersOutgoing:[1 2 3] Learners:[5] LearnersNext:[] AutoLeave:false",
        acknowledged: &[(1, 10), (2, 7), (3, 9), (5, 4)],
        target: "Voters:[1 3] VotersOutgoing:[1 2 5] Learners:[] LearnersNext:[5] AutoLeave:true",
        plan: "leave-joint\nsimple v5\nenter-joint autoleave=true r2 v3 l5\n",
        shown: &[
            (
                "voters=(1 2)&&(1 2 3) learners=(5)",
                &[
                    "1: StateProbe match=10 next=11",
                    "2: StateProbe match=7 next=8",
                    "3: StateProbe match=9 next=10",
                    "5: StateProbe match=4 next=5 learner",
                ],
            ),
            (
                "voters=(1 2) learners=(5)",
                &[
                    "1: StateProbe match=10 next=11",
                    "2: StateProbe match=7 next=8",
                    "5: StateProbe match=4 next=5 learner",
                ],
            ),
            (
                "voters=(1 2 5)",
                &[
                    "1: StateProbe match=10 next=11",
                    "2: StateProbe match=7 next=8",
                    "5: StateProbe match=4 next=5",
                ],
            ),
            (
                "voters=(1 3)&&(1 2 5) learners_next=(5) autoleave",
                &[
                    "1: StateProbe match=10 next=11",
                    "2: StateProbe match=7 next=8",
                    "3: StateProbe match=0 next=1",
                    "5: StateProbe match=4 next=5",
                ],
            ),
        ],
    },
];

/// The plan that a text is parsed as.
pub(crate) fn plan_of(alloc: Global, text: &str) -> Result<Plan, PlanTextFault> {
    twice!(PlanTextFault::NoMemory, read_plan(alloc, text.as_bytes()))
}

/// The path that a text is parsed as.
pub(crate) fn path_in(alloc: Global, text: &str) -> Result<Path, PlanTextFault> {
    twice!(PlanTextFault::NoMemory, read_path(alloc, text.as_bytes()))
}

fn is_plan<S: MemberSet>(
    alloc: Global,
    now: &Config<S>,
    target: &Config<S>,
    expected: &Plan,
) -> bool
    requires now { is_valid now.now ≡ true }
    requires target { is_valid target.now ≡ true }
{
    match twice!(PlanFault::NoMemory, plan(alloc, now, target)) {
        Ok(plan) => has_steps(plan.as_slice(), expected.as_slice()),
        Err(_) => false,
    }
}

fn is_shortest<S: MemberSet>(
    alloc: Global,
    now: &Config<S>,
    target: &Config<S>,
    expected: &Plan,
) -> bool {
    match shortest_path(alloc, now, target) {
        Some(path) => has_steps(path.as_slice(), expected.as_slice()),
        None => false,
    }
}

// Whether this is the plan from one configuration to another, and the shortest path has its steps.
fn leads<S: MemberSet>(alloc: Global, now: &str, target: &str, expected: &Plan) -> bool {
    let now = config_at::<S>(alloc, now);
    let target = config_at::<S>(alloc, target);
    is_plan(alloc, &now, &target, expected) & is_shortest(alloc, &now, &target, expected)
}

// How many steps of a plan a changer accepts: all of them, unless memory runs out.
fn steps_for<S: MemberSet>(changer: &mut Changer<S>, plan: &Plan) -> Option<usize> {
    match apply_plan(changer, plan) {
        Ok(()) => Some(plan.len()),
        Err(
            StepRefused {
                step,
                refused: Refused::NoMemory,
            },
        ) => Some(step.saturating_sub(1)),
        Err(_) => None,
    }
}

fn is_shown_after<S: MemberSet>(
    alloc: Global,
    changer: &Changer<S>,
    steps: Option<usize>,
    shown: &[Shown],
) -> bool {
    let Some(steps) = steps else {
        return false;
    };
    match shown.get(steps) {
        Some(shown) => is_shown(alloc, changer, *shown),
        None => false,
    }
}

// Whether a plan is applied to a changer. On `NoMemory` only the steps before the refused one are, and the whole plan
// is applied to another changer.
fn is_applied<S: MemberSet>(
    alloc: Global,
    changer: &mut Changer<S>,
    other: &mut Changer<S>,
    plan: &Plan,
    shown: &[Shown],
) -> bool {
    let whole = Some(plan.len());
    let steps = steps_for(changer, plan);
    let is_so = is_shown_after(alloc, changer, steps, shown);
    if steps == whole {
        return is_so;
    }
    is_so & (steps_for(other, plan) == whole) & is_shown_after(alloc, other, whole, shown)
}

// Whether the members of a changer acknowledge these indexes.
fn acknowledge<S: MemberSet>(changer: &mut Changer<S>, indexes: &[(u64, u64)]) -> bool {
    let mut is_so = true;
    for (id, index) in indexes {
        is_so &= changer.ack(*id, *index).is_ok();
    }
    is_so
}

fn is_row<S: MemberSet>(alloc: Global, row: &Row, plan: &Plan) -> bool {
    let mut changer = changer_at::<S>(alloc, row.now);
    let mut other = changer_at::<S>(alloc, row.now);
    leads::<S>(alloc, row.now, row.target, plan)
        & acknowledge(&mut changer, row.acknowledged)
        & acknowledge(&mut other, row.acknowledged)
        & is_applied(alloc, &mut changer, &mut other, plan, row.shown)
}

/// Whether a plan is printed as this text.
pub(crate) fn is_printed(alloc: Global, plan: &Plan, expected: &str) -> bool {
    appends!(alloc, expected, |text| print_plan(text, plan))
}

fn is_row_of_both(alloc: Global, row: &Row) -> bool {
    match plan_of(alloc, row.plan) {
        Ok(plan) => {
            is_printed(alloc, &plan, row.plan)
                & is_row::<TreeIds>(alloc, row, &plan)
                & is_row::<InlineIds>(alloc, row, &plan)
        }
        Err(_) => false,
    }
}

#[test]
fn makes_and_applies_plans(rt: HostRuntime) {
    for row in &ROWS {
        holds_at(&rt, row.plan, is_row_of_both(rt.alloc(), row));
    }
}

static NO_PLANS: [(&str, PlanTextFault); 8] = [
    ("", PlanTextFault::BadLine(1)),
    ("\n", PlanTextFault::BadLine(1)),
    ("enter-joint v1", PlanTextFault::BadLine(1)),
    ("leave-joint v1", PlanTextFault::BadLine(1)),
    ("nothing to do\nleave-joint", PlanTextFault::BadLine(1)),
    ("leave-joint\nsimple v1 x1", PlanTextFault::BadLine(2)),
    ("leave-joint\n\nleave-joint\n", PlanTextFault::BadLine(2)),
    (
        "leave-joint\nleave-joint\nleave-joint\nleave-joint\nleave-joint",
        PlanTextFault::TooManySteps,
    ),
];

// Texts of more than four lines, and the lines of the paths that they are parsed as, or the first error.
static LONG_TEXTS: [(&str, Result<&str, PlanTextFault>); 4] = [
    (
        "leave-joint\nleave-joint\nleave-joint\nleave-joint\n leave-joint",
        Ok("leave-joint\nleave-joint\nleave-joint\nleave-joint\nleave-joint\n"),
    ),
    (
        "simple l4\nsimple v04\nsimple r1\nsimple l5\nsimple  v5\nsimple r2\n",
        Ok("simple l4\nsimple v4\nsimple r1\nsimple l5\nsimple v5\nsimple r2\n"),
    ),
    (
        "simple\nsimple\nsimple\nsimple\nsimple\nsimple v1 x1\n",
        Err(PlanTextFault::BadLine(6)),
    ),
    (
        "simple\nsimple\nsimple\nsimple\nnothing to do\n",
        Err(PlanTextFault::BadLine(5)),
    ),
];

fn is_read(alloc: Global, text: &str, expected: Result<&str, PlanTextFault>) -> bool {
    match path_in(alloc, text) {
        Ok(path) => paths::is_printed(alloc, &path, expected.unwrap_or("")),
        Err(fault) => expected.err() == Some(fault),
    }
}

#[test]
fn reads_paths_of_any_length(rt: HostRuntime) {
    for (text, expected) in &LONG_TEXTS {
        holds_at(&rt, *text, is_read(rt.alloc(), *text, *expected));
    }
}

// A plan's text, and the command and the changes of its first step.
static TOKENS_OF_STEPS: [(&str, &str, &str); 5] = [
    ("simple v1 r2 l03 u4\nleave-joint", "simple", "v1 r2 l3 u4"),
    (
        "enter-joint autoleave=true v18446744073709551615",
        "enter-joint autoleave=true",
        "v18446744073709551615",
    ),
    (
        "enter-joint autoleave=false",
        "enter-joint autoleave=false",
        "",
    ),
    ("leave-joint", "leave-joint", ""),
    ("simple", "simple", ""),
];

/// Whether there is a step with this command and these changes.
pub(crate) fn is_step(alloc: Global, step: Option<&Step>, command: &str, changes: &str) -> bool {
    let Some(step) = step else {
        return false;
    };
    match twice!(NoMemory, changes_text(alloc, step.changes())) {
        Ok(text) => {
            (command_text(step) == command.as_bytes()) & (text.as_slice() == changes.as_bytes())
        }
        Err(_) => false,
    }
}

// Whether the first step of a plan's text has this command and these changes.
fn begins_with(alloc: Global, text: &str, command: &str, changes: &str) -> bool {
    match plan_of(alloc, text) {
        Ok(plan) => is_step(alloc, plan.step(0), command, changes),
        Err(_) => false,
    }
}

fn is_no_plan(alloc: Global, text: &str, expected: PlanTextFault) -> bool {
    plan_of(alloc, text).err() == Some(expected)
}

#[test]
fn refuses_bad_plan_texts(rt: HostRuntime) {
    for (text, expected) in &NO_PLANS {
        holds_at(&rt, *text, is_no_plan(rt.alloc(), *text, *expected));
    }
}

#[test]
fn reads_steps(rt: HostRuntime) {
    for (text, command, changes) in &TOKENS_OF_STEPS {
        holds_at(
            &rt,
            *text,
            begins_with(rt.alloc(), *text, *command, *changes),
        );
    }
}
