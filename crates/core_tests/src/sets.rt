//! Sets of ids, and the committed indexes and votes of sets of voters.
use quorum_sets::{
    InlineIds, MemberSet, NoMemory, TreeIds, VoteResult, add_ids, chart, committed, common_member,
    is_quorum, joint_chart, joint_committed, joint_vote, list_of, symdiff, vote,
};
use smallvec::SmallVec;
use std::alloc::Global;
use std::collections::BTreeMap;
use test_support::equal::has_ids;
use test_support::{appends, twice};

fn with_ids<S: MemberSet>(alloc: Global, ids: &[u64]) -> Result<S, NoMemory> {
    let mut set = S::empty(alloc);
    for id in ids {
        set.insert(*id)?;
    }
    Ok(set)
}

/// The set of some ids; an empty one if memory ran out twice, so that its row fails without a branch for it.
pub(crate) fn ids<S: MemberSet>(alloc: Global, ids: &[u64]) -> S {
    match twice!(NoMemory, with_ids(alloc, ids)) {
        Ok(set) => set,
        Err(_) => S::empty(alloc),
    }
}

// Whether the copy of a set equals it.
fn is_copied<S: MemberSet>(set: &S, ids: &[u64]) -> bool {
    match twice!(NoMemory, set.try_clone()) {
        Ok(copy) => has_ids(&copy, ids) & (symdiff(set, &copy) == 0),
        Err(_) => false,
    }
}

// Whether a set is overwritten with another one; on `NoMemory` it is left empty.
fn becomes<S: MemberSet>(copy: &mut S, set: &S, ids: &[u64]) -> bool {
    let mut answer = copy.try_clone_from(set);
    let mut is_left_empty = true;
    if answer.is_err() {
        is_left_empty = copy.len() == 0;
        answer = copy.try_clone_from(set);
    }
    is_left_empty & (answer == Ok(())) & has_ids(copy, ids)
}

// Whether a new id is inserted; on `NoMemory` the set is unchanged.
fn is_inserted<S: MemberSet>(set: &mut S, before: &[u64], id: u64, after: &[u64]) -> bool {
    let mut answer = set.insert(id);
    let mut stays = true;
    if answer.is_err() {
        stays = has_ids(set, before);
        answer = set.insert(id);
    }
    stays & (answer == Ok(true)) & has_ids(set, after)
}

// Whether inserting an id again changes nothing, and removing it takes effect once. None of these calls allocates.
fn is_removed<S: MemberSet>(set: &mut S, id: u64, after: &[u64]) -> bool {
    let again = set.insert(id);
    let was_there = set.remove(id);
    let is_there = set.remove(id);
    (again == Ok(false)) & was_there & !is_there & has_ids(set, after)
}

// The ids of a set, the one that is inserted, and the ids afterwards.
static INSERTED: [(&[u64], u64, &[u64]); 4] = [
    (&[], 1, &[1]),
    (&[1, 3], 2, &[1, 2, 3]),
    (&[1, 2, 3, 4, 5, 6, 7, 8], 9, &[1, 2, 3, 4, 5, 6, 7, 8, 9]),
    (
        &[2, 3, 4, 5, 6, 7, 8, 9, 10, 11, 12, 13, 14, 15, 16, 17],
        1,
        &[1, 2, 3, 4, 5, 6, 7, 8, 9, 10, 11, 12, 13, 14, 15, 16, 17],
    ),
];

fn is_set<S: MemberSet>(alloc: Global, before: &[u64], id: u64, after: &[u64]) -> bool {
    let mut set: S = ids(alloc, before);
    let mut copy: S = ids(alloc, after);
    is_copied(&set, before)
        & becomes(&mut copy, &set, before)
        & is_inserted(&mut set, before, id, after)
        & is_copied(&set, after)
        & is_removed(&mut set, id, before)
}

const LIST: [u64; 12] = [9, 1, 8, 2, 7, 3, 6, 4, 5, 1, 9, 5];

const NINE: &[u64] = &[1, 2, 3, 4, 5, 6, 7, 8, 9];

// Whether the set of a list has the nine ids.
fn is_listed<S: MemberSet>(alloc: Global, list: &[u64]) -> bool {
    match twice!(NoMemory, S::of_list(alloc, list)) {
        Ok(set) => has_ids(&set, NINE),
        Err(_) => false,
    }
}

#[test]
fn inserts_and_removes_ids(rt: HostRuntime) {
    for (index, (before, id, after)) in INSERTED.iter().enumerate() {
        assert!(rt;
            is_set::<TreeIds>(rt.alloc(), *before, *id, *after)
                & is_set::<InlineIds>(rt.alloc(), *before, *id, *after),
            "row {index}"
        );
    }
}

#[test]
fn makes_sets_of_lists(rt: HostRuntime) {
    for list in [&LIST[..], NINE] {
        assert!(rt;
            is_listed::<TreeIds>(rt.alloc(), list) & is_listed::<InlineIds>(rt.alloc(), list)
        );
    }
}

// The ids of a set, and the list of them.
static AS_LISTS: [(&[u64], &[u64]); 3] = [
    (&[], &[]),
    (&[4, u64::MAX, 2], &[2, 4, u64::MAX]),
    (&LIST, NINE),
];

// Whether this is the list of a set.
fn has_list<S: MemberSet>(alloc: Global, set: &S, list: &[u64]) -> bool {
    match twice!(NoMemory, list_of(alloc, set)) {
        Ok(own) => own.as_slice() == list,
        Err(_) => false,
    }
}

// Whether the ids of a set are appended to a list, which then is this; on `NoMemory` the list is unchanged.
fn is_appended<S: MemberSet>(
    list: &mut SmallVec<u64, 16>,
    before: &[u64],
    set: &S,
    after: &[u64],
) -> bool {
    let mut answer = add_ids(list, set);
    let mut stays = true;
    if answer.is_err() {
        stays = list.as_slice() == before;
        answer = add_ids(list, set);
    }
    stays & (answer == Ok(())) & (list.as_slice() == after)
}

const NINE_TWICE: &[u64] = &[1, 2, 3, 4, 5, 6, 7, 8, 9, 1, 2, 3, 4, 5, 6, 7, 8, 9];

// Nine ids fit into the list itself. Nine more take an allocation.
fn is_appended_twice<S: MemberSet>(alloc: Global) -> bool {
    let set: S = ids(alloc, NINE);
    let mut list = SmallVec::new(alloc);
    is_appended(&mut list, &[], &set, NINE) & is_appended(&mut list, NINE, &set, NINE_TWICE)
}

fn is_as_list<S: MemberSet>(alloc: Global, own: &[u64], list: &[u64]) -> bool {
    let set: S = ids(alloc, own);
    has_list(alloc, &set, list)
}

#[test]
fn lists_the_ids_of_sets(rt: HostRuntime) {
    for (index, (own, list)) in AS_LISTS.iter().enumerate() {
        assert!(rt;
            is_as_list::<TreeIds>(rt.alloc(), *own, *list)
                & is_as_list::<InlineIds>(rt.alloc(), *own, *list),
            "row {index}"
        );
    }
}

#[test]
fn appends_the_ids_of_sets(rt: HostRuntime) {
    assert!(rt;
        is_appended_twice::<TreeIds>(rt.alloc()) & is_appended_twice::<InlineIds>(rt.alloc())
    );
}

// The ids of both sets of a pair, the acknowledged indexes, the committed indexes of the first set and of both, and the
// charts of the first set and of both.
struct Acknowledged {
    incoming: &'static [u64],
    outgoing: &'static [u64],
    acks: &'static [(u64, u64)],
    committed: u64,
    joint_committed: u64,
    chart: &'static str,
    joint_chart: &'static str,
}

// Charts of four ids, of three ids one of which has acknowledged nothing, and of nine ids.
const FOUR_ACKNOWLEDGED: &str = "        idx\n\
    >         1    (id=1)\n\
    x>        2    (id=2)\n\
    xx>       3    (id=3)\n\
    xxx>      4    (id=4)\n";

const ONE_WITHOUT: &str = "       idx\n\
    x>       5    (id=1)\n\
    ?        0    (id=2)\n\
    xx>      7    (id=3)\n";

const NINE_ACKNOWLEDGED: &str = "             idx\n\
    >              1    (id=1)\n\
    x>             2    (id=2)\n\
    xx>            3    (id=3)\n\
    xxx>           4    (id=4)\n\
    xxxx>          5    (id=5)\n\
    xxxxx>         6    (id=6)\n\
    xxxxxx>        7    (id=7)\n\
    xxxxxxx>       8    (id=8)\n\
    xxxxxxxx>      9    (id=9)\n";

static ACKNOWLEDGED: [Acknowledged; 5] = [
    Acknowledged {
        incoming: &[],
        outgoing: &[],
        acks: &[],
        committed: u64::MAX,
        joint_committed: u64::MAX,
        chart: "<empty majority quorum>",
        joint_chart: "<empty majority quorum>",
    },
    Acknowledged {
        incoming: &[1, 2, 3, 4],
        outgoing: &[],
        acks: &[(1, 1), (2, 2), (3, 3), (4, 4)],
        committed: 2,
        joint_committed: 2,
        chart: FOUR_ACKNOWLEDGED,
        joint_chart: FOUR_ACKNOWLEDGED,
    },
    Acknowledged {
        incoming: &[1],
        outgoing: &[2],
        acks: &[(1, 100)],
        committed: 100,
        joint_committed: 0,
        chart: "     idx\n>    100    (id=1)\n",
        joint_chart: "      idx\nx>    100    (id=1)\n?       0    (id=2)\n",
    },
    Acknowledged {
        incoming: &[1, 2, 3],
        outgoing: &[],
        acks: &[(1, 5), (3, 7)],
        committed: 5,
        joint_committed: 5,
        chart: ONE_WITHOUT,
        joint_chart: ONE_WITHOUT,
    },
    Acknowledged {
        incoming: NINE,
        outgoing: &[1],
        acks: &[
            (1, 1),
            (2, 2),
            (3, 3),
            (4, 4),
            (5, 5),
            (6, 6),
            (7, 7),
            (8, 8),
            (9, 9),
        ],
        committed: 5,
        joint_committed: 1,
        chart: NINE_ACKNOWLEDGED,
        joint_chart: NINE_ACKNOWLEDGED,
    },
];

/// The acknowledged indexes of some ids.
pub(crate) fn with_acks(
    alloc: Global,
    entries: &[(u64, u64)],
) -> Result<BTreeMap<u64, u64>, NoMemory> {
    let mut acks = BTreeMap::new(alloc);
    for (id, index) in entries {
        acks.insert(*id, *index)?;
    }
    Ok(acks)
}

fn has_chart<S: MemberSet>(
    alloc: Global,
    voters: &S,
    acks: &BTreeMap<u64, u64>,
    expected: &str,
) -> bool {
    appends!(alloc, expected, |text| chart(text, voters, acks))
}

fn has_joint_chart<S: MemberSet>(
    alloc: Global,
    incoming: &S,
    outgoing: &S,
    acks: &BTreeMap<u64, u64>,
    expected: &str,
) -> bool {
    appends!(
        alloc,
        expected,
        |text| joint_chart(text, incoming, outgoing, acks)
    )
}

// Whether the committed indexes and the charts are those of a row. For up to eight ids the committed index is computed
// without allocating.
fn commits<S: MemberSet>(
    alloc: Global,
    incoming: &S,
    outgoing: &S,
    acks: &BTreeMap<u64, u64>,
    row: &Acknowledged,
) -> bool {
    let mut one = committed(alloc, incoming, acks);
    let mut both = joint_committed(alloc, incoming, outgoing, acks);
    if (incoming.len() > 8) & one.is_err() {
        one = committed(alloc, incoming, acks);
    }
    if (incoming.len() > 8) & both.is_err() {
        both = joint_committed(alloc, incoming, outgoing, acks);
    }
    (one == Ok(row.committed))
        & (both == Ok(row.joint_committed))
        & has_chart(alloc, incoming, acks, row.chart)
        & has_joint_chart(alloc, incoming, outgoing, acks, row.joint_chart)
}

fn is_committed<S: MemberSet>(alloc: Global, row: &Acknowledged) -> bool {
    let incoming: S = ids(alloc, row.incoming);
    let outgoing: S = ids(alloc, row.outgoing);
    match twice!(NoMemory, with_acks(alloc, row.acks)) {
        Ok(acks) => commits(alloc, &incoming, &outgoing, &acks, row),
        Err(_) => false,
    }
}

#[test]
fn commits_and_charts(rt: HostRuntime) {
    for (index, row) in ACKNOWLEDGED.iter().enumerate() {
        assert!(rt;
            is_committed::<TreeIds>(rt.alloc(), row) & is_committed::<InlineIds>(rt.alloc(), row),
            "row {index}"
        );
    }
}

fn with_votes(alloc: Global, entries: &[(u64, bool)]) -> Result<BTreeMap<u64, bool>, NoMemory> {
    let mut votes = BTreeMap::new(alloc);
    for (id, vote) in entries {
        votes.insert(*id, *vote)?;
    }
    Ok(votes)
}

// Whether the votes, quorums and shared ids of {1 2 3} with {3 4 5} are right. These calls do not allocate.
fn decides<S: MemberSet>(first: &S, second: &S, votes: &BTreeMap<u64, bool>) -> bool {
    (vote(first, votes) == VoteResult::VoteWon)
        & (joint_vote(first, second, votes) == VoteResult::VotePending)
        & (symdiff(first, second) == 4)
        & !is_quorum((first, second), first)
        & is_quorum((first, first), first)
        & (common_member((first, first), (first, second), first, second).is_none())
        & (common_member((first, first), (first, first), first, first) == Some(1))
}

fn is_decided<S: MemberSet>(alloc: Global) -> bool {
    let first: S = ids(alloc, &[1, 2, 3]);
    let second: S = ids(alloc, &[3, 4, 5]);
    match twice!(
        NoMemory,
        with_votes(alloc, &[(1, true), (2, true), (4, false)])
    ) {
        Ok(votes) => decides(&first, &second, &votes),
        Err(_) => false,
    }
}

#[test]
fn counts_votes(rt: HostRuntime) {
    assert!(rt; is_decided::<TreeIds>(rt.alloc()) & is_decided::<InlineIds>(rt.alloc()));
}
