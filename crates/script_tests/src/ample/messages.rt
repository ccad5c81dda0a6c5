//! The messages of the error types, each value once, and that no two of one type are equal.
use conf_change::{
    AckFault, ConfStateFault, ConfigurationFault, Invariant, Refused, RestoreFault, TokenFault,
    Violation,
};
use conf_plan::{NoPath, PlanFault, PlanTextFault, StepRefused};
use conf_session::UndoFault;
use conf_tool::{Origin, PlanInputFault, ToolFault};
use dd_file::fault::{DeviceFault, FileFault, SyntaxFault, WriteFault};
use plan_input::{IdHint, TextFault};
use quorum_sets::NoMemory;
use std::fmt::Display;
use test_support::runtime::Runtime;

fn shows<T: Display>(rt: &impl Runtime, value: &T, message: &str) -> bool {
    let shown = format!(in rt.alloc(); "{value}").expect(rt, "a message");
    shown.as_str() == message
}

// Whether a value of the rows equals only the one at its own index.
fn equals_only_itself<T: PartialEq>(rows: &[(T, &str)], index: usize, value: &T) -> bool {
    let mut is_so = true;
    for (at, (other, _)) in rows.iter().enumerate() {
        is_so &= (value == other) == (index == at);
    }
    is_so
}

// Whether each value is printed as its message, and equals only itself.
fn have_texts<T: Display + PartialEq>(rt: &impl Runtime, rows: &[(T, &str)]) -> bool {
    let mut is_so = true;
    for (index, (value, message)) in rows.iter().enumerate() {
        is_so &= shows(rt, value, *message) & equals_only_itself(rows, index, value);
    }
    is_so
}

const NO_MEMORY: &str = "out of memory";

static REFUSALS: [(Refused, &str); 7] = [
    (Refused::AlreadyJoint, "config is already joint"),
    (
        Refused::ZeroVoterJoint,
        "can't make a zero-voter config joint",
    ),
    (Refused::NotJoint, "can't leave a non-joint config"),
    (
        Refused::SimpleInJoint,
        "can't apply simple config change in joint config",
    ),
    (Refused::RemovedAllVoters, "removed all voters"),
    (
        Refused::MoreThanOneVoter,
        "more than one voter changed without entering joint config",
    ),
    (Refused::NoMemory, NO_MEMORY),
];

static INVARIANTS: [(Invariant, &str); 6] = [
    (Invariant::ZeroId, "a set holds the id 0"),
    (
        Invariant::NextNotOutgoing,
        "a next learner is not an outgoing voter",
    ),
    (
        Invariant::NextAndIncoming,
        "a next learner is an incoming voter",
    ),
    (Invariant::LearnerAndVoter, "a learner is a voter"),
    (
        Invariant::NotJointButNext,
        "next learners without outgoing voters",
    ),
    (
        Invariant::NotJointButAutoLeave,
        "auto-leave without outgoing voters",
    ),
];

#[test]
fn messages_of_changes(rt: HostRuntime) {
    assert!(rt;
        have_texts(&rt, &[(NoMemory, NO_MEMORY)])
            & have_texts(&rt, &REFUSALS)
            & have_texts(&rt, &INVARIANTS)
    );
}

static TOKENS: [(TokenFault<'_>, &str); 5] = [
    (TokenFault::UnknownToken(b"v"), "unknown token"),
    (TokenFault::UnknownToken(b"w"), "unknown token"),
    (TokenFault::UnknownInput(b"v"), "unknown input"),
    (TokenFault::BadNumber(b"v"), "bad number"),
    (TokenFault::NoMemory, NO_MEMORY),
];

static LINES: [(ConfStateFault, &str); 2] = [
    (ConfStateFault::BadConfState, "bad conf state"),
    (ConfStateFault::NoMemory, NO_MEMORY),
];

static RESTORED: [(RestoreFault, &str); 2] = [
    (RestoreFault::NotAConfiguration, "not a configuration"),
    (RestoreFault::NoMemory, NO_MEMORY),
];

static ACKNOWLEDGED: [(AckFault, &str); 2] = [
    (AckFault::NotMember, "not a member"),
    (AckFault::IndexTooLarge, "index too large"),
];

static VIOLATIONS: [(Violation, &str); 6] = [
    (Violation::ListedTwice(3), "3 is listed twice"),
    (Violation::ZeroId, "0 is not an id"),
    (
        Violation::NextNotOutgoing(3),
        "3 is a next learner and not an outgoing voter",
    ),
    (
        Violation::NextAndIncoming(3),
        "3 is a next learner and an incoming voter",
    ),
    (
        Violation::LearnerAndVoter(18446744073709551615),
        "18446744073709551615 is a voter and a learner",
    ),
    (
        Violation::NotJointButAutoLeave,
        "auto-leave without outgoing voters",
    ),
];

#[test]
fn messages_of_change_texts(rt: HostRuntime) {
    assert!(rt;
        have_texts(&rt, &TOKENS)
            & have_texts(&rt, &LINES)
            & have_texts(&rt, &RESTORED)
            & have_texts(&rt, &ACKNOWLEDGED)
            & have_texts(&rt, &VIOLATIONS)
    );
}

static NO_PLANS: [(PlanFault, &str); 3] = [
    (
        PlanFault::NoVoterNow,
        "no plan: the current configuration has no voter",
    ),
    (PlanFault::NoVoterTarget, "no plan: the target has no voter"),
    (PlanFault::NoMemory, NO_MEMORY),
];

static NO_PATHS: [(NoPath, &str); 4] = [
    (
        NoPath::NoVoterNow,
        "no plan: the current configuration has no voter",
    ),
    (NoPath::NoVoterTarget, "no plan: the target has no voter"),
    (NoPath::JointTarget, "no plan: the target is joint"),
    (NoPath::NoMemory, NO_MEMORY),
];

static STOPS: [(StepRefused, &str); 3] = [
    (
        StepRefused {
            step: 1,
            refused: Refused::NotJoint,
        },
        "step 1: can't leave a non-joint config",
    ),
    (
        StepRefused {
            step: 2,
            refused: Refused::NotJoint,
        },
        "step 2: can't leave a non-joint config",
    ),
    (
        StepRefused {
            step: 2,
            refused: Refused::NoMemory,
        },
        "step 2: out of memory",
    ),
];

static PLAN_TEXTS: [(PlanTextFault, &str); 4] = [
    (PlanTextFault::BadLine(1), "line 1: bad line"),
    (PlanTextFault::BadLine(2), "line 2: bad line"),
    (PlanTextFault::TooManySteps, "too many steps"),
    (PlanTextFault::NoMemory, NO_MEMORY),
];

#[test]
fn messages_of_plans(rt: HostRuntime) {
    assert!(rt;
        have_texts(&rt, &NO_PLANS)
            & have_texts(&rt, &NO_PATHS)
            & have_texts(&rt, &STOPS)
            & have_texts(&rt, &PLAN_TEXTS)
    );
}

static FILES: [(FileFault, &str); 7] = [
    (
        FileFault::Syntax(1, SyntaxFault::BadDirective),
        "line 1: bad directive",
    ),
    (
        FileFault::Syntax(12, SyntaxFault::BadDirective),
        "line 12: bad directive",
    ),
    (
        FileFault::Syntax(1, SyntaxFault::AfterDouble),
        "line 1: line after double separator is not blank",
    ),
    (
        FileFault::Syntax(1, SyntaxFault::UnclosedDouble),
        "line 1: double separator is not closed",
    ),
    (FileFault::InputTooLong(1), "line 1: input too long"),
    (FileFault::Read, "cannot read"),
    (FileFault::NoMemory, NO_MEMORY),
];

#[test]
fn messages_of_files(rt: HostRuntime) {
    assert!(rt;
        have_texts(&rt, &FILES)
            & have_texts(&rt, &[(DeviceFault, "device fault")])
            & have_texts(&rt, &[(WriteFault, "cannot write")])
    );
}

const UNKNOWN_FORM: &str =
    "--from: not a configuration: expected voters=(1 2 3) learners=(4), a ConfState line, or JSON of a ConfState or of \
    etcdctl member list";

const BAD_LINE: &str =
    "line 1: bad conf state: expected Voters:[1 2] VotersOutgoing:[] Learners:[3] LearnersNext:[] \
    AutoLeave:false";

const BAD_PRINTED: &str =
    "--to: bad configuration: expected voters=(1 2)&&(1 2 3) learners=(4) learners_next=(3) autoleave, without what is \
    empty";

const BAD_JSON: &str =
    "line 3: bad JSON: expected {\"voters\":[1,2],\"voters_outgoing\":[],\"learners\":[3],\"learners_next\":[],\
    \"auto_leave\":false}, or etcdctl member list -w json";

static CONFIGURATIONS: [(PlanInputFault, &str); 10] = [
    (
        PlanInputFault::BadText(Origin::From, TextFault::UnknownForm),
        UNKNOWN_FORM,
    ),
    (
        PlanInputFault::BadText(Origin::Line(1), TextFault::BadConfState(IdHint::NONE)),
        BAD_LINE,
    ),
    (
        PlanInputFault::BadText(Origin::To, TextFault::BadPrinted(IdHint::NONE)),
        BAD_PRINTED,
    ),
    (
        PlanInputFault::BadText(Origin::Line(3), TextFault::BadJson(IdHint::NONE)),
        BAD_JSON,
    ),
    (
        PlanInputFault::BadText(
            Origin::Line(2),
            TextFault::NotAConfiguration(Violation::LearnerAndVoter(3)),
        ),
        "line 2: not a configuration: 3 is a voter and a learner",
    ),
    (
        PlanInputFault::BadText(Origin::Line(2), TextFault::NoMemory),
        "line 2: out of memory",
    ),
    (PlanInputFault::NotAMember(9), "--down: 9 is not a member"),
    (
        PlanInputFault::NotAMemberAt(2, 18446744073709551615),
        "line 2: 18446744073709551615 is down and not a member",
    ),
    (PlanInputFault::NotTwoLines, "expected two lines"),
    (
        PlanInputFault::NoTarget(Origin::Line(3)),
        "line 3: its target is missing",
    ),
];

static RUNS: [(ToolFault, &str); 7] = [
    (
        ToolFault::Script(FileFault::Syntax(1, SyntaxFault::BadDirective)),
        "line 1: bad directive",
    ),
    (
        ToolFault::Script(FileFault::Syntax(2, SyntaxFault::BadDirective)),
        "line 2: bad directive",
    ),
    (
        ToolFault::Configurations(PlanInputFault::BadText(
            Origin::Line(2),
            TextFault::NotAConfiguration(Violation::ZeroId),
        )),
        "line 2: not a configuration: 0 is not an id",
    ),
    (
        ToolFault::Configurations(PlanInputFault::NotTwoLines),
        "expected two lines",
    ),
    (ToolFault::Read, "cannot read"),
    (ToolFault::Write, "cannot write"),
    (ToolFault::NoMemory, NO_MEMORY),
];

static UNDONE: [(UndoFault, &str); 4] = [
    (
        UndoFault::NotKept(0),
        "no plan: 0 earlier configurations are kept",
    ),
    (
        UndoFault::NotKept(12),
        "no plan: 12 earlier configurations are kept",
    ),
    (
        UndoFault::NoVoterTarget,
        "no plan: the earlier configuration has no voter",
    ),
    (UndoFault::NoMemory, NO_MEMORY),
];

#[test]
fn messages_of_sessions_and_runs(rt: HostRuntime) {
    assert!(rt;
        have_texts(&rt, &UNDONE) & have_texts(&rt, &CONFIGURATIONS) & have_texts(&rt, &RUNS)
    );
}
