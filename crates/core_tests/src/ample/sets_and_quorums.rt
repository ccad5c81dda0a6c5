//! Sets of ids, and test vectors of majorities, quorums and lookups.
use crate::sets::with_acks;
use quorum_sets::{
    AckSource, MemberSet, TreeIds, commits_without, common_member, contains_from, is_quorum,
    may_be_down, quorum,
};
use std::collections::BTreeMap;
use test_support::runtime::Runtime;

pub(crate) fn set_of(rt: &impl Runtime, ids: &[u64]) -> TreeIds {
    TreeIds::of_list(rt.alloc(), ids).expect(rt, "a set")
}

#[test]
fn computes_majorities(rt: HostRuntime) {
    for (n, majority) in [(0, 1), (1, 1), (2, 2), (3, 2), (4, 3)] {
        assert!(rt; quorum(n) == majority, "of {n}");
    }
}

// The incoming and the outgoing voters, other ids, and whether these are a quorum.
static QUORUMS: [(&[u64], &[u64], &[u64], bool); 5] = [
    (&[], &[], &[], false),
    (&[], &[], &[1, 2, 3], false),
    (&[1, 2, 3], &[], &[1, 3, 4, 5], true),
    (&[1, 2, 3], &[3, 4, 5, 6], &[1, 3, 4, 5], true),
    (&[1, 2, 3], &[3, 4, 5, 6], &[1, 2, 3], false),
];

#[test]
fn decides_quorums(rt: HostRuntime) {
    for (index, (incoming, outgoing, ids, expected)) in QUORUMS.iter().enumerate() {
        let incoming = set_of(&rt, *incoming);
        let outgoing = set_of(&rt, *outgoing);
        let ids = set_of(&rt, *ids);
        assert!(rt;
            is_quorum((&incoming, &outgoing), &ids) == *expected,
            "row {index}"
        );
    }
}

// The incoming and the outgoing voters, the ids that do not count, and how many of the others may be down.
static TOLERATED: [(&[u64], &[u64], &[u64], Option<usize>); 9] = [
    (&[], &[], &[], None),
    (&[], &[1, 2, 3], &[], None),
    (&[18446744073709551615], &[], &[], Some(0)),
    (&[1, 2, 3], &[], &[], Some(1)),
    (&[1, 2, 3, 4, 5], &[], &[6, 7], Some(2)),
    (&[1, 2, 3, 4, 5, 6], &[], &[], Some(2)),
    (&[3, 4, 5, 6, 7], &[1, 2, 3, 4, 5], &[], Some(2)),
    (&[3, 4, 5, 6, 7], &[1, 2, 3, 4, 5], &[6, 7], Some(0)),
    (&[3, 4, 5], &[1, 2, 3], &[4, 5], None),
];

#[test]
fn counts_tolerated_failures(rt: HostRuntime) {
    for (index, (incoming, outgoing, uncounted, expected)) in TOLERATED.iter().enumerate() {
        let incoming = set_of(&rt, *incoming);
        let outgoing = set_of(&rt, *outgoing);
        let uncounted = set_of(&rt, *uncounted);
        assert!(rt;
            (may_be_down((&incoming, &outgoing), &uncounted) == *expected)
                & (commits_without((&incoming, &outgoing), &uncounted) == expected.is_some()),
            "row {index}"
        );
    }
}

// The voters of one pair, those of another, a set for each, and the least id in both sets if both are quorums.
struct Sharing {
    before: (&'static [u64], &'static [u64]),
    after: (&'static [u64], &'static [u64]),
    first: &'static [u64],
    second: &'static [u64],
    least: Option<u64>,
}

static SHARED: [Sharing; 4] = [
    Sharing {
        before: (&[1, 2, 3], &[]),
        after: (&[1, 2, 3, 4], &[]),
        first: &[1, 2],
        second: &[2, 3, 4],
        least: Some(2),
    },
    Sharing {
        before: (&[1, 2, 3], &[]),
        after: (&[1, 2, 3, 4], &[]),
        first: &[1],
        second: &[2, 3, 4],
        least: None,
    },
    Sharing {
        before: (&[3], &[1]),
        after: (&[1], &[]),
        first: &[1, 3],
        second: &[1],
        least: Some(1),
    },
    Sharing {
        before: (&[1], &[]),
        after: (&[2], &[]),
        first: &[1],
        second: &[2],
        least: None,
    },
];

fn shared_member(rt: &impl Runtime, row: &Sharing) -> Option<u64> {
    let before = (set_of(rt, row.before.0), set_of(rt, row.before.1));
    let after = (set_of(rt, row.after.0), set_of(rt, row.after.1));
    let first = set_of(rt, row.first);
    let second = set_of(rt, row.second);
    common_member(
        (&before.0, &before.1),
        (&after.0, &after.1),
        &first,
        &second,
    )
}

#[test]
fn finds_common_members(rt: HostRuntime) {
    for (number, row) in SHARED.iter().enumerate() {
        assert!(rt; shared_member(&rt, row) == row.least, "row {number}");
    }
}

fn acks_of(rt: &impl Runtime, entries: &[(u64, u64)]) -> BTreeMap<u64, u64> {
    with_acks(rt.alloc(), entries).expect(rt, "entries")
}

#[test]
fn commits_what_a_majority_acknowledged(rt: HostRuntime) {
    let acks = acks_of(&rt, &[(1, 5), (3, 0)]);
    for (id, index) in [(1, Some(5)), (2, None), (3, Some(0))] {
        assert!(rt; acks.acked(id) == index, "of {id}");
    }
}

// Ids that do not always ascend, and whether each is one of 2, 4 and 9.
static LOOKED_UP: [(u64, bool); 8] = [
    (1, false),
    (2, true),
    (4, true),
    (3, false),
    (2, true),
    (9, true),
    (10, false),
    (4, true),
];

#[test]
fn looks_up_ascending_ids(rt: HostRuntime) {
    let set = set_of(&rt, &[2, 4, 9]);
    let mut index = 0;
    for (id, there) in &LOOKED_UP {
        assert!(rt; contains_from(&set, &mut index, *id) == *there, "{id}");
    }
}
