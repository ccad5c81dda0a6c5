//! The helpers that tests share answer no where things differ.
use crate::ample::sets_and_quorums::set_of;
use conf_change::{Change, Changer, Changes, Floor, Kind, Step};
use quorum_sets::TreeIds;
use test_support::appending::{begun, is_appended, is_begun};
use test_support::equal::{has_ids, has_steps, is_same};
use test_support::restoring::{FIVE, changer_at, read, restored};
use test_support::runtime::Runtime;
use test_support::shown::{Shown, is_shown};

#[test]
fn texts_differ(rt: HostRuntime) {
    let mut text = begun(rt.alloc());
    assert!(rt; is_begun(text.as_slice()) && is_appended(text.as_slice(), ""));
    text.push(b'a').expect(&rt, "a text");
    assert!(rt; !is_begun(text.as_slice()) && is_appended(text.as_slice(), "a"));
    assert!(rt; !is_appended(text.as_slice(), "b") && !is_appended(text.as_slice(), "aa"));
    assert!(rt; !is_begun(b"") && !is_appended(b"a", "a"));
}

#[test]
fn sets_differ(rt: HostRuntime) {
    let set = set_of(&rt, &[1, 3]);
    assert!(rt; has_ids(&set, &[1, 3]));
    for ids in [&[][..], &[1], &[1, 2], &[1, 4], &[1, 3, 4]] {
        assert!(rt; !has_ids(&set, ids));
    }
}

// Changers with the configuration of the line, except the first. No two of them are equal.
fn changers(rt: &impl Runtime) -> [Changer<TreeIds>; 5] {
    let state = read(rt.alloc(), FIVE).expect(rt, "a configuration");
    let mut later = changer_at(rt.alloc(), FIVE);
    later.set_last_index(7);
    let mut acknowledged = changer_at(rt.alloc(), FIVE);
    acknowledged.set_last_index(7);
    acknowledged.ack(5, 7).expect(rt, "a member");
    [
        Changer::new(rt.alloc(), 0),
        changer_at(rt.alloc(), FIVE),
        restored(rt.alloc(), &state, Floor::Zero).expect(rt, "a changer"),
        later,
        acknowledged,
    ]
}

#[test]
fn changers_differ(rt: HostRuntime) {
    let changers = changers(&rt);
    for (index, changer) in changers.iter().enumerate() {
        for (other_index, other) in changers.iter().enumerate() {
            assert!(rt;
                is_same(changer, other) == (index == other_index),
                "{index}, {other_index}"
            );
        }
    }
}

const MEMBERS: &[&str] = &[
    "1: StateProbe match=0 next=1",
    "2: StateProbe match=0 next=1",
    "3: StateProbe match=0 next=1",
    "4: StateProbe match=0 next=1",
    "5: StateProbe match=0 next=1",
];

// What is printed of other changers than that of the line.
static OTHERS: [Shown; 4] = [
    ("voters=(1 2 3 4 5) autoleave", MEMBERS),
    ("voters=(1 2 3 4 5)", &[]),
    (
        "voters=(1 2 3 4 5)",
        &[
            "1: StateProbe match=0 next=1",
            "2: StateProbe match=0 next=1",
            "3: StateProbe match=0 next=1",
            "4: StateProbe match=0 next=1",
            "5: StateProbe match=0 next=2",
        ],
    ),
    ("", MEMBERS),
];

#[test]
fn printed_changers_differ(rt: HostRuntime) {
    let changer: Changer<TreeIds> = changer_at(rt.alloc(), FIVE);
    assert!(rt; is_shown(rt.alloc(), &changer, ("voters=(1 2 3 4 5)", MEMBERS)));
    for (index, other) in OTHERS.iter().enumerate() {
        assert!(rt; !is_shown(rt.alloc(), &changer, *other), "{index}");
    }
}

fn simple(rt: &impl Runtime, kind: Kind, id: u64) -> Step {
    let changes = [Change { kind, id }].to_vec(rt.alloc());
    Step::Simple(Changes::from(changes.expect(rt, "a list")))
}

#[test]
fn lists_of_steps_differ(rt: HostRuntime) {
    let steps = [simple(&rt, Kind::Voter, 1), Step::LeaveJoint];
    let equal = [simple(&rt, Kind::Voter, 1), Step::LeaveJoint];
    let others = [simple(&rt, Kind::Voter, 2), Step::LeaveJoint];
    let kinds = [simple(&rt, Kind::Learner, 1), Step::LeaveJoint];
    let order = [Step::LeaveJoint, simple(&rt, Kind::Voter, 1)];
    assert!(rt; has_steps(&steps, &equal) && has_steps(&[], &[]));
    for other in [&others[..], &kinds, &order, &equal[..1], &[]] {
        assert!(rt; !has_steps(&steps, other));
    }
}
