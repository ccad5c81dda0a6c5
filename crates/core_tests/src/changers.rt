//! Changes of a configuration.
use crate::sets::ids;
use conf_change::{
    Change, Changer, Changes, Refused, Step, StepKind, TokenFault, Transition, read_changes, taken,
    union, write_refused, write_token_fault,
};
use quorum_sets::{InlineIds, MemberSet, NoMemory, TreeIds};
use std::alloc::Global;
use test_support::equal::{has_ids, is_same};
use test_support::shown::{Shown, is_shown};
use test_support::{appends, twice};

// A call that changes a changer.
#[derive(Clone, Copy)]
enum Call {
    One,
    Simple,
    Enter(bool),
    Leave,
    Change(Transition),
}

// A call with the text of its changes, and what is printed after it or why it is refused.
type Row = (Call, &'static [u8], Result<Shown, Refused>);

const ONE: Shown = ("voters=(1)", &["1: StateProbe match=0 next=1"]);

static ENTERED: [Row; 4] = [
    (Call::One, b"v1", Ok(ONE)),
    (
        Call::Enter(false),
        b"r1 r2 r9 v2 v3 v4 v2 v3 v4 l2 l2 r4 r4 l1 l1",
        Ok((
            "voters=(3)&&(1) learners=(2) learners_next=(1)",
            &[
                "1: StateProbe match=0 next=1",
                "2: StateProbe match=0 next=1 learner",
                "3: StateProbe match=0 next=1",
            ],
        )),
    ),
    (Call::Enter(true), b"v4", Err(Refused::AlreadyJoint)),
    (
        Call::Leave,
        b"",
        Ok((
            "voters=(3) learners=(1 2)",
            &[
                "1: StateProbe match=0 next=1 learner",
                "2: StateProbe match=0 next=1 learner",
                "3: StateProbe match=0 next=1",
            ],
        )),
    ),
];

static MANY: [Row; 4] = [
    (Call::Simple, b"v1", Ok(ONE)),
    (Call::Simple, b"r1", Err(Refused::RemovedAllVoters)),
    (Call::Simple, b"v2 v3", Err(Refused::MoreThanOneVoter)),
    (
        Call::Enter(true),
        b"v9 v8 v7 v6 v5 v4 v3 v2 v10",
        Ok((
            "voters=(1 2 3 4 5 6 7 8 9 10)&&(1) autoleave",
            &[
                "1: StateProbe match=0 next=1",
                "2: StateProbe match=0 next=3",
                "3: StateProbe match=0 next=3",
                "4: StateProbe match=0 next=3",
                "5: StateProbe match=0 next=3",
                "6: StateProbe match=0 next=3",
                "7: StateProbe match=0 next=3",
                "8: StateProbe match=0 next=3",
                "9: StateProbe match=0 next=3",
                "10: StateProbe match=0 next=3",
            ],
        )),
    ),
];

static CHANGED: [Row; 9] = [
    (Call::Change(Transition::Auto), b"v1", Ok(ONE)),
    (
        Call::Change(Transition::Auto),
        b"v2",
        Ok((
            "voters=(1 2)",
            &[
                "1: StateProbe match=0 next=1",
                "2: StateProbe match=0 next=1",
            ],
        )),
    ),
    (
        Call::Change(Transition::Auto),
        b"r1 v3",
        Ok((
            "voters=(2 3)&&(1 2) autoleave",
            &[
                "1: StateProbe match=0 next=1",
                "2: StateProbe match=0 next=1",
                "3: StateProbe match=0 next=2",
            ],
        )),
    ),
    (
        Call::Change(Transition::Auto),
        b"v4",
        Err(Refused::SimpleInJoint),
    ),
    (
        Call::Change(Transition::Auto),
        b"",
        Ok((
            "voters=(2 3)",
            &[
                "2: StateProbe match=0 next=1",
                "3: StateProbe match=0 next=2",
            ],
        )),
    ),
    (Call::Change(Transition::Auto), b"", Err(Refused::NotJoint)),
    (
        Call::Change(Transition::Implicit),
        b"v4",
        Ok((
            "voters=(2 3 4)&&(2 3) autoleave",
            &[
                "2: StateProbe match=0 next=1",
                "3: StateProbe match=0 next=2",
                "4: StateProbe match=0 next=6",
            ],
        )),
    ),
    (
        Call::Leave,
        b"",
        Ok((
            "voters=(2 3 4)",
            &[
                "2: StateProbe match=0 next=1",
                "3: StateProbe match=0 next=2",
                "4: StateProbe match=0 next=6",
            ],
        )),
    ),
    (
        Call::Change(Transition::Explicit),
        b"",
        Ok((
            "voters=(2 3 4)&&(2 3 4)",
            &[
                "2: StateProbe match=0 next=1",
                "3: StateProbe match=0 next=2",
                "4: StateProbe match=0 next=6",
            ],
        )),
    ),
];

fn make<S: MemberSet>(
    changer: &mut Changer<S>,
    call: Call,
    changes: &[Change],
) -> Result<(), Refused> {
    match call {
        Call::One => match changes.first() {
            Some(change) => changer.simple_one(*change),
            None => Ok(()),
        },
        Call::Simple => changer.simple(changes),
        Call::Enter(auto_leave) => changer.enter_joint(auto_leave, changes),
        Call::Leave => changer.leave_joint(),
        Call::Change(transition) => changer.change(transition, changes),
    }
}

// The kind of a call's step.
fn kind_of(call: Call, changes: &[Change]) -> StepKind {
    match call {
        Call::One | Call::Simple => StepKind::Simple,
        Call::Enter(auto_leave) => StepKind::Enter(auto_leave),
        Call::Leave => StepKind::Leave,
        Call::Change(transition) => taken(transition, changes),
    }
}

// The step of a call.
fn step(alloc: Global, call: Call, text: &'static [u8]) -> Result<Step, NoMemory> {
    let Ok(list) = read_changes(alloc, text) else {
        return Err(NoMemory);
    };
    let changes = Changes::from(list);
    let copy = changes.try_clone()?;
    Ok(match kind_of(call, changes.as_slice()) {
        StepKind::Simple => Step::Simple(copy),
        StepKind::Enter(auto_leave) => Step::EnterJoint(auto_leave, copy),
        StepKind::Leave => Step::LeaveJoint,
    })
}

// Whether a call gives the result of its row; on `NoMemory` the changer is unchanged.
fn is_changed<S: MemberSet>(
    alloc: Global,
    changer: &mut Changer<S>,
    copy: &Changer<S>,
    row: &Row,
    changes: &[Change],
) -> bool {
    let (call, _, expected) = row;
    let mut answer = make(changer, *call, changes);
    let mut stays = true;
    if answer == Err(Refused::NoMemory) {
        stays = is_same(changer, copy);
        answer = make(changer, *call, changes);
    }
    stays
        & match (answer, expected) {
            (Ok(()), Ok(shown)) => is_shown(alloc, changer, *shown),
            (Err(fault), Err(refused)) => (fault == *refused) & is_same(changer, copy),
            _ => false,
        }
}

// Whether a step leads from a changer to `after`, or is refused for this reason.
fn is_stepped<S: MemberSet>(
    changer: &mut Changer<S>,
    step: &Step,
    after: &Changer<S>,
    refused: Option<Refused>,
) -> bool {
    let mut answer = changer.step(step);
    if answer == Err(Refused::NoMemory) {
        answer = changer.step(step);
    }
    (answer.err() == refused) & is_same(changer, after)
}

// Whether another changer is overwritten with the result of a step, and is empty once its configuration is moved out.
fn becomes<S: MemberSet>(
    other: &mut Changer<S>,
    before: &Changer<S>,
    step: &Step,
    after: &Changer<S>,
    refused: Option<Refused>,
) -> bool {
    let mut answer = other.become_next(before, step.kind(), step.changes());
    if answer == Err(Refused::NoMemory) {
        answer = other.become_next(before, step.kind(), step.changes());
    }
    let is_next = refused.is_some() || is_same(other, after);
    let config = other.take_config();
    (answer.err() == refused)
        & is_next
        & (refused.is_some() || config.same(after.tracker().config()))
        & (other.tracker().member_count() == 0)
}

// Whether a call gives the result of its row, and its step does too.
fn is_row<S: MemberSet>(
    alloc: Global,
    changer: &mut Changer<S>,
    copy: &mut Changer<S>,
    row: &Row,
    step: &Step,
) -> bool {
    let refused = row.2.err();
    let is_made = is_changed(alloc, changer, copy, row, step.changes());
    is_made
        & becomes(&mut Changer::new(alloc, 9), copy, step, changer, refused)
        & is_stepped(copy, step, changer, refused)
}

fn is_made_by<S: MemberSet>(
    alloc: Global,
    changer: &mut Changer<S>,
    row: &Row,
    step: &Step,
) -> bool {
    match twice!(NoMemory, changer.try_clone()) {
        Ok(mut copy) => is_row(alloc, changer, &mut copy, row, step),
        Err(_) => false,
    }
}

fn is_made<S: MemberSet>(alloc: Global, changer: &mut Changer<S>, row: &Row) -> bool {
    match twice!(NoMemory, step(alloc, row.0, row.1)) {
        Ok(step) => is_made_by(alloc, changer, row, &step),
        Err(_) => false,
    }
}

// Whether the calls of rows give their results, one after another. The last index counts the calls.
fn are_made<S: MemberSet>(alloc: Global, rows: &[Row]) -> bool {
    let mut changer: Changer<S> = Changer::new(alloc, 0);
    let mut is_so = true;
    for row in rows {
        is_so &= is_made(alloc, &mut changer, row);
        let last_index = changer.last_index();
        changer.set_last_index(last_index.saturating_add(1));
    }
    is_so
}

fn are_all_made<S: MemberSet>(alloc: Global) -> bool {
    are_made::<S>(alloc, &ENTERED) & are_made::<S>(alloc, &MANY) & are_made::<S>(alloc, &CHANGED)
}

#[test]
fn takes_steps_over_trees(rt: HostRuntime) {
    assert!(rt; are_all_made::<TreeIds>(rt.alloc()));
}

#[test]
fn takes_steps_over_lists(rt: HostRuntime) {
    assert!(rt; are_all_made::<InlineIds>(rt.alloc()));
}

fn is_union<S: MemberSet>(odd: &S, even: &S) -> bool {
    match twice!(NoMemory, union(odd, even)) {
        Ok(both) => has_ids(
            &both,
            &[1, 2, 3, 4, 5, 6, 7, 8, 9, 10, 11, 12, 13, 14, 15, 16, 17],
        ),
        Err(_) => false,
    }
}

// Whether the union of two sets is right.
fn are_together<S: MemberSet>(alloc: Global) -> bool {
    let odd: S = ids(alloc, &[1, 3, 5, 7, 9, 11, 13, 15, 17]);
    let even: S = ids(alloc, &[2, 3, 4, 6, 8, 10, 12, 14, 16]);
    is_union(&odd, &even)
}

#[test]
fn unites_sets(rt: HostRuntime) {
    assert!(rt; are_together::<TreeIds>(rt.alloc()) & are_together::<InlineIds>(rt.alloc()));
}

fn is_refusal_written(alloc: Global) -> bool {
    appends!(
        alloc,
        "removed all voters",
        |text| write_refused(text, Refused::RemovedAllVoters),
    )
}

fn is_fault_written(alloc: Global) -> bool {
    appends!(
        alloc,
        "bad number: v1x",
        |text| write_token_fault(text, TokenFault::BadNumber(b"v1x")),
    )
}

#[test]
fn appends_refusals_and_token_errors(rt: HostRuntime) {
    assert!(rt; is_refusal_written(rt.alloc()) & is_fault_written(rt.alloc()));
}
