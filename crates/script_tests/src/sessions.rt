//! What sessions answer to directives, and the plans that undo their changes.
use conf_change::Floor;
use conf_plan::{Plan, PlanTextFault, read_plan};
use conf_session::{Session, UndoFault, undo_fault_text};
use dd_file::device::FromRead;
use dd_file::fault::FileFault;
use dd_file::item::{Directive, Item};
use dd_file::reader::Reader;
use quorum_sets::NoMemory;
use std::alloc::Global;
use test_support::equal::{has_steps, is_same};
use test_support::twice;

// A directive as it is in a script, and its actual output.
type Row = (&'static [u8], &'static [u8]);

const JOINT: &[Row] = &[
    (b"simple\nv1", b"voters=(1)\n1: StateProbe match=0 next=1\n"),
    (
        b"enter-joint\nr1 r2 r9 v2 v3 v4 v2 v3 v4 l2 l2 r4 r4 l1 l1",
        b"voters=(3)&&(1) learners=(2) learners_next=(1)\n\
        1: StateProbe match=0 next=1\n\
        2: StateProbe match=0 next=1 learner\n\
        3: StateProbe match=0 next=1\n",
    ),
    (
        b"leave-joint",
        b"voters=(3) learners=(1 2)\n\
        1: StateProbe match=0 next=1 learner\n\
        2: StateProbe match=0 next=1 learner\n\
        3: StateProbe match=0 next=1\n",
    ),
    (b"ack id=3 index=7", b"3: StateProbe match=7 next=8\n"),
    (
        b"undo",
        b"enter-joint autoleave=false v1 l3\n\
        leave-joint\n\
        enter-joint autoleave=false l1 v3\n\
        voters=(3)&&(1) learners=(2) learners_next=(1)\n\
        1: StateProbe match=0 next=1\n\
        2: StateProbe match=0 next=1 learner\n\
        3: StateProbe match=7 next=8\n",
    ),
];

const UNDONE_TWICE: &[Row] = &[
    (b"simple\nv1", b"voters=(1)\n1: StateProbe match=0 next=1\n"),
    (
        b"enter-joint\nr1 v2",
        b"voters=(2)&&(1)\n\
        1: StateProbe match=0 next=1\n\
        2: StateProbe match=0 next=1\n",
    ),
    (
        b"leave-joint",
        b"voters=(2)\n2: StateProbe match=0 next=1\n",
    ),
    (
        b"enter-joint\nr2 v3",
        b"voters=(3)&&(2)\n\
        2: StateProbe match=0 next=1\n\
        3: StateProbe match=0 next=3\n",
    ),
    (
        b"undo steps=2",
        b"leave-joint\n\
        enter-joint autoleave=false v1 r3\n\
        leave-joint\n\
        enter-joint autoleave=false r1 v2\n\
        voters=(2)&&(1)\n\
        1: StateProbe match=0 next=4\n\
        2: StateProbe match=0 next=4\n",
    ),
];

const SAVED: &[Row] = &[
    (
        b"restore\n\
        Voters:[1 2 3] VotersOutgoing:[1 2 4 6] Learners:[5] LearnersNext:[4] AutoLeave:false",
        b"voters=(1 2 3)&&(1 2 4 6) learners=(5) learners_next=(4)\n\
        1: StateProbe match=0 next=1\n\
        2: StateProbe match=0 next=1\n\
        3: StateProbe match=0 next=1\n\
        4: StateProbe match=0 next=1\n\
        5: StateProbe match=0 next=1 learner\n\
        6: StateProbe match=0 next=1\n",
    ),
    (
        b"restore\n\
        Voters:[1 2 3] VotersOutgoing:[1 2 4 6] Learners:[5] LearnersNext:[7] AutoLeave:false",
        b"not a configuration\n",
    ),
    (
        b"conf-state",
        b"Voters:[1 2 3] VotersOutgoing:[1 2 4 6] Learners:[5] LearnersNext:[4] AutoLeave:false\n",
    ),
    (b"undo", b"no plan: 0 earlier configurations are kept\n"),
];

const DECIDED: &[Row] = &[
    (b"committed", b"<empty majority quorum>\xe2\x88\x9e\n"),
    (
        b"committed cfg=(1,2,3,4) idx=(1,2,3,4)",
        b"        idx\n\
        >         1    (id=1)\n\
        x>        2    (id=2)\n\
        xx>       3    (id=3)\n\
        xxx>      4    (id=4)\n\
        2\n",
    ),
    (
        b"committed cfg=(1) cfgj=(2) idx=(100,_)",
        b"      idx\nx>    100    (id=1)\n?       0    (id=2)\n0\n",
    ),
    (
        b"vote cfg=(1,2,3) cfgj=(3,4,5) votes=(y,y,_,n,_)",
        b"VotePending\n",
    ),
    (b"vote cfg=(1,2) votes=(y)", b"wrong number of values\n"),
    (b"commit-index", b"\xe2\x88\x9e\n"),
    (b"simple\nv1 x5", b"unknown input: x5\n"),
    (b"frob", b"unknown command\n"),
];

const MANY: &[Row] = &[
    (
        b"conf-change\nv1",
        b"voters=(1)\n1: StateProbe match=0 next=1\n",
    ),
    (
        b"conf-change transition=maybe\nv2 v3",
        b"bad argument: transition\n",
    ),
    (
        b"enter-joint\nv9 v8 v7 v6 v5 v4 v3 v2 v10",
        b"voters=(1 2 3 4 5 6 7 8 9 10)&&(1)\n\
        1: StateProbe match=0 next=1\n\
        2: StateProbe match=0 next=2\n\
        3: StateProbe match=0 next=2\n\
        4: StateProbe match=0 next=2\n\
        5: StateProbe match=0 next=2\n\
        6: StateProbe match=0 next=2\n\
        7: StateProbe match=0 next=2\n\
        8: StateProbe match=0 next=2\n\
        9: StateProbe match=0 next=2\n\
        10: StateProbe match=0 next=2\n",
    ),
    (
        b"undo",
        b"leave-joint\n\
        enter-joint autoleave=false r2 r3 r4 r5 r6 r7 r8 r9 r10\n\
        leave-joint\n\
        voters=(1)\n\
        1: StateProbe match=0 next=1\n",
    ),
];

const FROM_ZERO: &[Row] = &[
    (
        b"restore\n\
        Voters:[2] VotersOutgoing:[] Learners:[] LearnersNext:[] AutoLeave:false",
        b"voters=(2)\n2: StateProbe match=0 next=0\n",
    ),
    (
        b"simple\nv1",
        b"voters=(1 2)\n1: StateProbe match=0 next=1\n2: StateProbe match=0 next=0\n",
    ),
];

// Whether two sessions are equal. It does not allocate.
fn is_same_session(session: &Session, other: &Session) -> bool {
    let mut is_so = is_same(session.changer(), other.changer()) & (session.kept() == other.kept());
    for index in 0..session.kept() {
        is_so &= match (session.kept_at(index), other.kept_at(index)) {
            (Some(config), Some(others)) => config.same(others),
            _ => false,
        };
    }
    is_so
}

// Whether a directive has this output; on `NoMemory` the session is unchanged.
fn has_output(
    session: &mut Session,
    copy: &Session,
    directive: &Directive,
    expected: &[u8],
) -> bool {
    let mut answer = session.step(directive);
    let mut stays = true;
    if answer.is_err() {
        stays = is_same_session(session, copy);
        answer = session.step(directive);
    }
    match answer {
        Ok(actual) => stays & (actual.as_slice() == expected),
        Err(_) => false,
    }
}

// Whether the directive has this output in the copy too, which gets each output back.
fn follows(copy: &mut Session, directive: &Directive, expected: &[u8]) -> bool {
    let mut answer = copy.step(directive);
    if answer.is_err() {
        answer = copy.step(directive);
    }
    match answer {
        Ok(actual) => {
            let is_so = actual.as_slice() == expected;
            copy.reuse(actual);
            is_so
        }
        Err(_) => false,
    }
}

// Whether the directive that a text begins with is read, and has this output.
fn is_read_and_answered(
    alloc: Global,
    session: &mut Session,
    copy: &mut Session,
    row: Row,
) -> Result<bool, FileFault> {
    let (text, expected) = row;
    let mut reader = Reader::new(alloc)?;
    match reader.next(&mut FromRead::new(text))? {
        Some(item) => Ok(has_outputs(session, copy, item, expected)),
        None => Ok(false),
    }
}

fn has_outputs(session: &mut Session, copy: &mut Session, item: &Item, expected: &[u8]) -> bool {
    match item.as_directive() {
        Some(directive) => {
            has_output(session, copy, directive, expected)
                & follows(copy, directive, expected)
                & is_same_session(session, copy)
        }
        None => false,
    }
}

fn is_row(alloc: Global, session: &mut Session, copy: &mut Session, row: Row) -> bool {
    matches!(
        twice!(
            FileFault::NoMemory,
            is_read_and_answered(alloc, session, copy, row)
        ),
        Ok(true)
    )
}

fn have_outputs(alloc: Global, session: &mut Session, copy: &mut Session, rows: &[Row]) -> bool {
    let mut is_so = true;
    for row in rows {
        is_so &= is_row(alloc, session, copy, *row);
    }
    is_so
}

fn is_plan(alloc: Global, plan: &Plan, text: &str) -> bool {
    match twice!(PlanTextFault::NoMemory, read_plan(alloc, text.as_bytes())) {
        Ok(expected) => has_steps(plan.as_slice(), expected.as_slice()),
        Err(_) => false,
    }
}

// Whether one more undo has this plan, or none for this reason.
fn is_undone_by(alloc: Global, session: &Session, expected: Result<&str, UndoFault>) -> bool {
    match (twice!(UndoFault::NoMemory, session.undo_plan(1)), expected) {
        (Ok(plan), Ok(text)) => is_plan(alloc, &plan, text),
        (Err(fault), Err(expected)) => fault == expected,
        _ => false,
    }
}

// A session with this initial next index. A session that `new` makes has the initial next index 1.
fn begun(alloc: Global, floor: Floor) -> Result<Session, NoMemory> {
    match floor {
        Floor::One => Session::new(alloc, 100),
        Floor::Zero => Session::with_floor(alloc, 100, floor),
    }
}

// Whether the directives of rows have their outputs, one after another, and one more undo has this plan.
fn holds(alloc: Global, floor: Floor, rows: &[Row], undone: Result<&str, UndoFault>) -> bool {
    match twice!(NoMemory, begun(alloc, floor)) {
        Ok(mut session) => holds_in(alloc, &mut session, floor, rows, undone),
        Err(_) => false,
    }
}

fn holds_in(
    alloc: Global,
    session: &mut Session,
    floor: Floor,
    rows: &[Row],
    undone: Result<&str, UndoFault>,
) -> bool {
    match twice!(NoMemory, Session::with_floor(alloc, 100, floor)) {
        Ok(mut copy) => {
            have_outputs(alloc, session, &mut copy, rows) & is_undone_by(alloc, session, undone)
        }
        Err(_) => false,
    }
}

// An initial next index, directives, and the plan of one more undo, or why there is none.
type Script = (Floor, &'static [Row], Result<&'static str, UndoFault>);

static SCRIPTS: [Script; 6] = [
    (
        Floor::One,
        JOINT,
        Ok("leave-joint\nenter-joint autoleave=false v1 r2 r3\nleave-joint\n"),
    ),
    (
        Floor::One,
        UNDONE_TWICE,
        Ok("leave-joint\nenter-joint autoleave=false v1 r2\nleave-joint\n"),
    ),
    (Floor::One, SAVED, Err(UndoFault::NotKept(0))),
    (Floor::One, DECIDED, Err(UndoFault::NotKept(0))),
    (Floor::One, MANY, Err(UndoFault::NoVoterTarget)),
    (Floor::Zero, FROM_ZERO, Ok("simple r1\n")),
];

#[test]
fn answers_directives(rt: HostRuntime) {
    for (index, (floor, rows, undone)) in SCRIPTS.iter().enumerate() {
        assert!(rt; holds(rt.alloc(), *floor, *rows, *undone), "row {index}");
    }
}

// Whether the text of an error is this one.
fn has_text(alloc: Global, fault: UndoFault, expected: &[u8]) -> bool {
    match twice!(NoMemory, undo_fault_text(alloc, fault)) {
        Ok(text) => text.as_slice() == expected,
        Err(_) => false,
    }
}

#[test]
fn appends_undo_errors(rt: HostRuntime) {
    let fault = UndoFault::NotKept(12);
    assert!(rt;
        has_text(
            rt.alloc(),
            fault,
            b"no plan: 12 earlier configurations are kept"
        )
    );
}
