//! Sets of 8, 9 and 10,000 ids, in both representations, and lists of 10,000 changes.
ghost use Rattle.std.specs.Prelude.{◌≤◌};

use conf_change::{Change, Changer, Kind, Progress, Refused};
use quorum_sets::{InlineIds, MemberSet, TreeIds, symdiff};
use test_support::runtime::Runtime;

// The even numbers from 2 to twice the count, inserted out of order: no count that is used has the factor 7919.
fn evens<S: MemberSet>(rt: &impl Runtime, count: u64) -> S
    requires { count ≤ 10000 }
{
    let mut set = S::empty(rt.alloc());
    for step in 0..count {
        set.insert(step * 7919 % count * 2 + 2).expect(rt, "a set");
    }
    set
}

// Whether a set's ids are the first `count` multiples of a number. A tree walks up to an index, so only some indexes
// are tried.
fn has_multiples<S: MemberSet>(set: &S, count: usize, of: u64) -> bool
    requires few { count ≤ 10000 }
    requires small { of ≤ 10 }
{
    let mut is_so = (set.len() == count) & set.at(count).is_none();
    for index in 0..count {
        let id = (index as u64 + 1) * of;
        is_so &= set.contains(id) & !set.contains(id + 1);
        if index % 89 < 9 {
            is_so &= set.at(index) == Some(id);
        }
    }
    is_so
}

// Removes every second id of a set of even numbers, and inserts the others again. Returns whether each call is right.
fn removes_half<S: MemberSet>(rt: &impl Runtime, set: &mut S, count: u64) -> bool
    requires { count ≤ 10000 }
{
    let mut is_so = true;
    for half in 0..count / 2 {
        let id = half * 4 + 2;
        is_so &= set.remove(id) & !set.remove(id);
        is_so &= !set.insert(id + 2).expect(rt, "a set");
    }
    if count % 2 == 1 {
        is_so &= set.remove(count * 2);
    }
    is_so
}

// Whether half of the ids are removed, the other half stay, and an earlier copy keeps all of them.
fn keeps_half<S: MemberSet>(rt: &impl Runtime, count: u64) -> bool
    requires { count ≤ 10000 }
{
    let mut set: S = evens(rt, count);
    let is_full = has_multiples(&set, count as usize, 2);
    let copy = set.try_clone().expect(rt, "a copy");
    is_full
        & removes_half(rt, &mut set, count)
        & has_multiples(&set, (count / 2) as usize, 4)
        & has_multiples(&copy, count as usize, 2)
}

#[test]
fn large_inline_sets(rt: HostRuntime) {
    for count in [8, 9, 10_000] {
        assert!(rt; keeps_half::<InlineIds>(&rt, count), "{count}");
    }
}

#[test]
fn large_tree_sets(rt: HostRuntime) {
    for count in [8, 9, 10_000] {
        assert!(rt; keeps_half::<TreeIds>(&rt, count), "{count}");
    }
}

#[test]
fn counts_differences(rt: HostRuntime) {
    let few: InlineIds = evens(&rt, 9);
    let many: InlineIds = evens(&rt, 10_000);
    assert!(rt;
        (symdiff(&few, &many) == 9_991)
            & (symdiff(&many, &few) == 9_991)
            & (symdiff(&many, &many) == 0)
    );
}

// Makes voters of the ids from 1 to the count.
fn voters(rt: &impl Runtime, count: u64) -> Vec<Change> {
    let mut changes = Vec::new(rt.alloc());
    for id in 0..count {
        let change = Change {
            kind: Kind::Voter,
            id: id.saturating_add(1),
        };
        changes.push(change).expect(rt, "a list");
    }
    changes
}

// Removes the even ids, and makes voters of the others, from the count down to 1.
fn halves(rt: &impl Runtime, count: u64) -> Vec<Change> {
    let mut changes = Vec::new(rt.alloc());
    for below in 0..count {
        let id = count.saturating_sub(below);
        let kind = if id % 2 == 0 {
            Kind::Remove
        } else {
            Kind::Voter
        };
        changes.push(Change { kind, id }).expect(rt, "a list");
    }
    changes
}

// Makes voters of 10,000 members, and changes each of them in one list.
fn change_all(
    changer: &mut Changer<InlineIds>,
    all: &[Change],
    halves: &[Change],
) -> Result<(), Refused> {
    changer.simple_one(Change {
        kind: Kind::Voter,
        id: 1,
    })?;
    changer.enter_joint(false, all)?;
    changer.leave_joint()?;
    changer.set_last_index(5);
    changer.enter_joint(false, halves)
}

const KEPT: Progress = Progress {
    matched: 0,
    next: 1,
    learner: false,
};

// Whether the odd ids are the incoming voters, and the numbers of outgoing voters and of members are these.
fn has_odd(changer: &Changer<InlineIds>, outgoing: usize, members: usize) -> bool {
    let tracker = changer.tracker();
    let config = tracker.config();
    (config.incoming.len() == 5_000)
        & (config.incoming.at(4_999) == Some(9_999))
        & !config.incoming.contains(10_000)
        & (config.outgoing.len() == outgoing)
        & (tracker.member_count() == members)
        & (tracker.progress(9_999) == Some(KEPT))
        & (tracker.progress(10_000).is_some() == (outgoing > 0))
}

fn changes_all(rt: &impl Runtime) -> bool {
    let all = voters(rt, 10_000);
    let halves = halves(rt, 10_000);
    let mut changer = Changer::new(rt.alloc(), 0);
    let made = change_all(&mut changer, all.as_slice(), halves.as_slice());
    let is_joint = has_odd(&changer, 10_000, 10_000);
    let left = changer.leave_joint();
    let is_left = has_odd(&changer, 0, 5_000);
    (made == Ok(())) & is_joint & (left == Ok(())) & is_left
}

#[test]
fn applies_10_000_changes(rt: HostRuntime) {
    assert!(rt; changes_all(&rt));
}
