//! Lists of changes.
use conf_change::{Change, Changes, Kind};
use test_support::runtime::Runtime;

static LIST: [Change; 4] = [
    Change {
        kind: Kind::Voter,
        id: 1,
    },
    Change {
        kind: Kind::Voter,
        id: 1,
    },
    Change {
        kind: Kind::Learner,
        id: 4294967297,
    },
    Change {
        kind: Kind::Remove,
        id: 0,
    },
];

// The first few changes of the list.
fn prefix(count: usize) -> &'static [Change] {
    LIST.get(..count).unwrap_or(&[])
}

fn changes(rt: &impl Runtime, count: usize) -> Changes {
    Changes::from(prefix(count).to_vec(rt.alloc()).expect(rt, "a list"))
}

// Whether a list of `count` changes has the changes that it is made of, and equals its copy.
fn keeps(rt: &impl Runtime, count: usize) -> bool {
    let changes = changes(rt, count);
    let copy = changes.try_clone().expect(rt, "a copy");
    let is_same = (changes.as_slice() == copy.as_slice()) & (changes.as_slice() == prefix(count));
    let vector: Vec<Change> = copy.into();
    is_same & (vector.as_slice() == prefix(count))
}

#[test]
fn lists_of_changes(rt: HostRuntime) {
    for count in 0..5 {
        assert!(rt; keeps(&rt, count), "{count}");
    }
}
