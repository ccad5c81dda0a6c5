//! The committed index: how far a majority has acknowledged the log.
//!
//! A server that has acknowledged an index has every entry up to it. So of the n acknowledged indexes, sorted, the
//! committed one is the (n/2 + 1)-th from the top, since a majority has acknowledged it or a greater one. It is found
//! without sorting.
//!
//! ```text
//! id       1 2 3 4 5
//! index    9 4 7 4 6
//! sorted   4 4 6 7 9    6 is committed, since 5, 3 and 1 have it
//! ```
ghost use Rattle.std.specs.Prelude.{◌≡◌, ◌*◌, ◌<◌, ◌≤◌, length, nat_le, nat_lt, count_by, [], None, IfOk, IfSome, IsOk, OnOk};
ghost use Rattle.quorum_sets.specs.Ids.{size};
ghost use Rattle.quorum_sets.specs.Voters.{most, pair};
ghost use Rattle.quorum_sets.specs.Committed.{acked_indexes, greatest_index, IsCommitted, IsJointCommitted, committed_index, joint_committed_index, committed_of, joint_committed_of};

use crate::acknowledgement::AckSource;
use crate::member_set::MemberSet;
use ascii_text::NoMemory;
use smallvec::SmallVec;
use std::alloc::Global;

/// The committed index of a set: the greatest index that more than half of its ids have acknowledged
/// (`MajorityConfig.CommittedIndex` of etcd's package `quorum`). An unknown index counts as 0. The empty set commits
/// the greatest `u64`, so that a joint configuration without outgoing voters commits what its incoming voters do.
pub fn committed<S: MemberSet, A: AckSource>(
    alloc: Global,
    set: &S,
    acks: &A,
) -> Result<u64, NoMemory>
    ensures counted { IfOk result (IsCommitted (S.ids set.now) (A.acks acks.now)) }
    ensures index { IfOk result (λ k. k ≡ committed_index (S.ids set.now) (A.acks acks.now)) }
    ensures no_memory { size (S.ids set.now) ≤ 8 → IsOk result }
{
    let mut indexes = SmallVec::new(alloc);
    gather(&mut indexes, set, acks)?;
    Ok(committed_of(indexes.as_slice()))
}

/// The committed index of a joint configuration: the smaller of the indexes that its two sets have committed, since a
/// majority of each has to acknowledge an index (`JointConfig.CommittedIndex` of etcd's package `quorum`).
pub fn joint_committed<S: MemberSet, A: AckSource>(
    alloc: Global,
    incoming: &S,
    outgoing: &S,
    acks: &A,
) -> Result<u64, NoMemory>
    ensures counted { IfOk result (IsJointCommitted (pair (S.ids incoming.now) (S.ids outgoing.now))
        (A.acks acks.now)) }
    ensures index { IfOk result (λ k.
        k ≡ joint_committed_index (pair (S.ids incoming.now) (S.ids outgoing.now))
        (A.acks acks.now)) }
    ensures no_memory { size (S.ids incoming.now) ≤ 8 → size (S.ids outgoing.now) ≤ 8
        → IsOk result }
{
    let first = committed(alloc, incoming, acks)?;
    let second = committed(alloc, outgoing, acks)?;
    Ok(first.min(second))
}

// Acknowledged indexes. Up to 8, as many as a small set has ids, take no memory.
type Indexes = SmallVec<u64, 8>;

// Fills an empty list with the acknowledged index of each id of the set.
fn gather<S: MemberSet, A: AckSource>(
    indexes: &mut Indexes,
    set: &S,
    acks: &A,
) -> Result<(), NoMemory>
    requires empty { indexes.old.items ≡ [] }
    requires room { 8 ≤ indexes.old.capacity }
    ensures items { OnOk result
        (indexes.new.items ≡ acked_indexes (S.ids set.now) (A.acks acks.now)) }
    ensures no_memory { size (S.ids set.now) ≤ 8 → IsOk result }
{
    indexes.reserve(set.len())?;
    for position in 0..set.len() {
        if let Some(id) = set.at(position) {
            indexes.push_reserved(acks.acked(id).unwrap_or(0));
        }
    }
    Ok(())
}

// The most indexes of which each is tried. Of more, what is tried is the middle of the numbers that are left.
const FEW: usize = 64;

/// The committed index of voters, from the index that each of them has acknowledged, 0 if it is unknown
/// (`MajorityConfig.CommittedIndex` of etcd's package `quorum`). It is the greatest `u64` if there are no voters. Nothing
/// is looked up, allocated or reordered: a number is tried by counting the indexes that reach it, and at most 64 are.
pub fn committed_of(indexes: &[u64]) -> u64
    ensures index { result ≡ committed_of indexes.now }
    ensures of_none { length indexes.now ≡ 0 → result ≡ greatest_index }
    ensures reached { 0 < length indexes.now
        → length indexes.now < 2 * count_by (nat_le result) indexes.now }
    ensures not_passed { 0 < length indexes.now
        → 2 * count_by (nat_lt result) indexes.now ≤ length indexes.now }
{
    if indexes.is_empty() {
        return u64::MAX;
    }
    let (mut least, mut greatest) = (0, u64::MAX);
    'tries: while let Some(index) = index_between(indexes, least, greatest) {
        let tried = if indexes.len() > FEW {
            greatest - (greatest - least) / 2
        } else {
            index
        };
        if most_reach(indexes, tried) {
            least = tried;
        } else {
            greatest = tried - 1;
        }
    }
    least
}

// The first index above `least` and not above `greatest`, if there is one.
fn index_between(indexes: &[u64], least: u64, greatest: u64) -> Option<u64>
    ensures some { IfSome result (λ index. (least < index) × (index ≤ greatest)) }
    ensures none { result ≡ None
        → count_by (nat_lt least) indexes.now ≤ count_by (nat_lt greatest) indexes.now }
{
    for index in indexes {
        if least < *index && *index <= greatest {
            return Some(*index);
        }
    }
    None
}

// Whether more than half of the indexes are at least this one.
fn most_reach(indexes: &[u64], least: u64) -> bool
    ensures { result ≡ most (nat_le least) indexes.now }
{
    let mut count = 0;
    for index in indexes {
        count += usize::from(*index >= least);
    }
    count > indexes.len() / 2
}

/// The committed index of a joint configuration, as [`committed_of`] takes that of each voter set
/// (`JointConfig.CommittedIndex` of etcd's package `quorum`).
pub fn joint_committed_of(incoming: &[u64], outgoing: &[u64]) -> u64
    ensures { result ≡ joint_committed_of incoming.now outgoing.now }
{
    committed_of(incoming).min(committed_of(outgoing))
}
