//! Applying plans and paths, and their texts; where there is no path, and which members have to catch up.
use crate::ample::configurations::{Sets, config_of};
use crate::assertions::holds_at;
use crate::plans;
use conf_change::{Change, Changer, Config, Kind, Refused, Step, check};
use conf_plan::{
    NoPath, Path, Plan, StepRefused, Strategy, apply_path, apply_plan, catching_up, plan_by,
};
use quorum_sets::TreeIds;
use test_support::equal::{has_ids, has_steps};
use test_support::runtime::Runtime;

fn plan_of(rt: &impl Runtime, text: &str) -> Plan {
    plans::plan_of(rt.alloc(), text).expect(rt, "a plan")
}

fn path_in(rt: &impl Runtime, text: &str) -> Path {
    plans::path_in(rt.alloc(), text).expect(rt, "a path")
}

const ONE: Sets = [&[1], &[], &[], &[]];

const TWO: Sets = [&[1, 2], &[], &[], &[]];

// A changer at `voters=(1)`.
fn one_voter(rt: &impl Runtime) -> Changer<TreeIds> {
    let mut changer = Changer::new(rt.alloc(), 0);
    let one = Change {
        kind: Kind::Voter,
        id: 1,
    };
    changer.simple_one(one).expect(rt, "a voter");
    changer
}

const TWO_OF_THREE: Sets = [&[2, 3], &[], &[4], &[]];

type Stopped = Result<(), StepRefused>;

// Texts that are applied one after another to a changer at `voters=(1)`, the step of the last one that is refused, if
// one is, and the configuration afterwards.
type Row = (&'static [&'static str], Option<usize>, Sets);

static PLANS: [Row; 3] = [
    (&["simple v2\nleave-joint"], Some(2), TWO),
    (&["simple v2"], None, TWO),
    (&["nothing to do"], None, ONE),
];

fn apply_plans(rt: &impl Runtime, changer: &mut Changer<TreeIds>, texts: &[&str]) -> Stopped {
    let mut stopped = Ok(());
    for text in texts {
        stopped = apply_plan(changer, &plan_of(rt, *text));
    }
    stopped
}

// Whether a step was refused as in a row, and the changer has the configuration of the row.
fn ends_as(rt: &impl Runtime, stopped: Stopped, changer: &Changer<TreeIds>, row: &Row) -> bool {
    let expected = match row.1 {
        Some(step) => Err(StepRefused {
            step,
            refused: Refused::NotJoint,
        }),
        None => Ok(()),
    };
    (stopped == expected)
        & changer
            .tracker()
            .config()
            .same(&config_of(rt, row.2, false))
}

fn are_plans_applied(rt: &impl Runtime, row: &Row) -> bool {
    let mut changer = one_voter(rt);
    let stopped = apply_plans(rt, &mut changer, row.0);
    ends_as(rt, stopped, &changer, row)
}

#[test]
fn stops_at_the_first_step_that_is_refused(rt: HostRuntime) {
    for (index, row) in PLANS.iter().enumerate() {
        holds_at(&rt, index, are_plans_applied(&rt, row));
    }
}

const FIRST_STEPS: &str = "simple l2\nsimple v2\n";

const OTHER_STEPS: &str = "simple l3\nsimple v3\nsimple r1\nsimple l4\n";

const ALL_STEPS: &str = "simple l2\nsimple v2\nsimple l3\nsimple v3\nsimple r1\nsimple l4\n";

const TOO_MANY: &str =
    "simple l2\nsimple v2\nsimple l3\nsimple v3\nsimple r1\nsimple l4\nleave-joint\n";

static PATHS: [Row; 4] = [
    (&[ALL_STEPS], None, TWO_OF_THREE),
    (&[FIRST_STEPS, OTHER_STEPS], None, TWO_OF_THREE),
    (&[TOO_MANY], Some(7), TWO_OF_THREE),
    (
        &[ALL_STEPS, "simple\nsimple\nleave-joint"],
        Some(3),
        TWO_OF_THREE,
    ),
];

fn apply_paths(rt: &impl Runtime, changer: &mut Changer<TreeIds>, texts: &[&str]) -> Stopped {
    let mut stopped = Ok(());
    for text in texts {
        stopped = apply_path(changer, &path_in(rt, *text));
    }
    stopped
}

fn are_paths_applied(rt: &impl Runtime, row: &Row) -> bool {
    let mut changer = one_voter(rt);
    let stopped = apply_paths(rt, &mut changer, row.0);
    ends_as(rt, stopped, &changer, row)
}

#[test]
fn applies_paths_of_any_length(rt: HostRuntime) {
    for (index, row) in PATHS.iter().enumerate() {
        holds_at(&rt, index, are_paths_applied(&rt, row));
    }
}

// Texts, and the lines of the plans that they are parsed as.
static TEXTS: [(&str, &str); 7] = [
    ("nothing to do", "nothing to do\n"),
    (" simple\t\r\n", "simple\n"),
    (
        "  simple v02\tr3\r\nleave-joint",
        "simple v2 r3\nleave-joint\n",
    ),
    ("leave-joint", "leave-joint\n"),
    ("simple v4294967297 r1", "simple v4294967297 r1\n"),
    (
        "simple v4294967297 r1 l4294967296",
        "simple v4294967297 r1 l4294967296\n",
    ),
    (
        "enter-joint autoleave=false l2\n\
        leave-joint\n\
        enter-joint autoleave=true\n\
        simple u18446744073709551615\n",
        "enter-joint autoleave=false l2\n\
        leave-joint\n\
        enter-joint autoleave=true\n\
        simple u18446744073709551615\n",
    ),
];

// Whether a plan has only the steps of the one at its own index, among those of the printed texts.
fn equals_only_itself(rt: &impl Runtime, index: usize, plan: &Plan) -> bool {
    let mut is_so = true;
    for (at, (_, text)) in TEXTS.iter().enumerate() {
        let other = plan_of(rt, *text);
        is_so &= has_steps(plan.as_slice(), other.as_slice()) == (index == at);
    }
    is_so
}

// Whether a text's plan is printed as its lines, and equals only the plan at its own index.
fn is_read(rt: &impl Runtime, index: usize, text: &str, expected: &str) -> bool {
    let plan = plan_of(rt, text);
    plans::is_printed(rt.alloc(), &plan, expected) & equals_only_itself(rt, index, &plan)
}

#[test]
fn prints_what_it_reads(rt: HostRuntime) {
    for (index, (text, expected)) in TEXTS.iter().enumerate() {
        holds_at(&rt, index, is_read(&rt, index, *text, *expected));
    }
}

const FIVE: Sets = [&[1, 2, 3, 4, 5], &[], &[], &[]];

const TWO_OF_FIVE_REPLACED: Sets = [&[3, 4, 5, 6, 7], &[], &[], &[]];

const NO_MEMBERS: Sets = [&[], &[], &[], &[]];

const JOINT: Sets = [&[1], &[2], &[], &[]];

const TWO_TO_COME: Sets = [&[2, 3], &[1], &[], &[]];

// A strategy that has no path from one configuration to another, and why.
type Refusal = (Strategy, Sets, Sets, NoPath);

static NO_PATHS: [Refusal; 12] = [
    (Strategy::Shortest, NO_MEMBERS, ONE, NoPath::NoVoterNow),
    (
        Strategy::Shortest,
        NO_MEMBERS,
        NO_MEMBERS,
        NoPath::NoVoterNow,
    ),
    (Strategy::Shortest, ONE, NO_MEMBERS, NoPath::NoVoterTarget),
    (Strategy::LearnersFirst, NO_MEMBERS, ONE, NoPath::NoVoterNow),
    (
        Strategy::LearnersFirst,
        NO_MEMBERS,
        NO_MEMBERS,
        NoPath::NoVoterNow,
    ),
    (
        Strategy::LearnersFirst,
        ONE,
        NO_MEMBERS,
        NoPath::NoVoterTarget,
    ),
    (Strategy::OneAtATime, NO_MEMBERS, ONE, NoPath::NoVoterNow),
    (Strategy::OneAtATime, NO_MEMBERS, JOINT, NoPath::NoVoterNow),
    (Strategy::OneAtATime, ONE, NO_MEMBERS, NoPath::NoVoterTarget),
    (
        Strategy::OneAtATime,
        JOINT,
        NO_MEMBERS,
        NoPath::NoVoterTarget,
    ),
    (Strategy::OneAtATime, ONE, TWO_TO_COME, NoPath::JointTarget),
    (
        Strategy::OneAtATime,
        JOINT,
        TWO_TO_COME,
        NoPath::JointTarget,
    ),
];

// Whether there is no path between two valid configurations, for this reason.
fn has_no_path(
    rt: &impl Runtime,
    strategy: Strategy,
    now: &Config<TreeIds>,
    target: &Config<TreeIds>,
    expected: NoPath,
) -> bool {
    check(now).is_ok()
        && check(target).is_ok()
        && plan_by(rt.alloc(), strategy, now, target, None).err() == Some(expected)
}

fn is_without_path(rt: &impl Runtime, row: &Refusal) -> bool {
    let now = config_of(rt, row.1, false);
    let target = config_of(rt, row.2, false);
    has_no_path(rt, row.0, &now, &target, row.3)
}

#[test]
fn reports_why_there_is_no_path(rt: HostRuntime) {
    for (index, row) in NO_PATHS.iter().enumerate() {
        holds_at(&rt, index, is_without_path(&rt, row));
    }
}

const ONE_DEMOTED: Sets = [&[1, 2], &[], &[3], &[]];

// A configuration, a step, the configuration that it gives, and the members that have to catch up then.
type CatchingUp = (Sets, &'static str, Sets, &'static [u64]);

static CATCHING_UP: [CatchingUp; 4] = [
    (
        FIVE,
        "enter-joint autoleave=false r1 r2 v6 v7",
        [&[3, 4, 5, 6, 7], &[1, 2, 3, 4, 5], &[], &[]],
        &[6, 7],
    ),
    (
        [&[3, 4, 5, 6, 7], &[1, 2, 3, 4, 5], &[], &[]],
        "leave-joint",
        TWO_OF_FIVE_REPLACED,
        &[],
    ),
    ([&[1, 2, 3], &[], &[], &[]], "simple l3", ONE_DEMOTED, &[]),
    (
        [&[1, 2, 3], &[], &[], &[]],
        "simple r3 l3",
        ONE_DEMOTED,
        &[3],
    ),
];

fn catch_up(
    rt: &impl Runtime,
    before: &Config<TreeIds>,
    step: &Step,
    after: &Config<TreeIds>,
    expected: &[u64],
) -> bool {
    let ids = catching_up(rt.alloc(), before, step, after).expect(rt, "a set");
    has_ids(&ids, expected)
}

fn catch_up_after(
    rt: &impl Runtime,
    before: &Config<TreeIds>,
    plan: &Plan,
    row: &CatchingUp,
) -> bool {
    let after = config_of(rt, row.2, false);
    match plan.step(0) {
        Some(step) => catch_up(rt, before, step, &after, row.3),
        None => false,
    }
}

fn are_catching_up(rt: &impl Runtime, row: &CatchingUp) -> bool {
    let before = config_of(rt, row.0, false);
    let plan = plan_of(rt, row.1);
    catch_up_after(rt, &before, &plan, row)
}

#[test]
fn members_without_progress_catch_up(rt: HostRuntime) {
    for (index, row) in CATCHING_UP.iter().enumerate() {
        holds_at(&rt, index, are_catching_up(&rt, row));
    }
}
