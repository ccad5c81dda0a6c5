//! Laws of this crate's definitions: what is true of all sets, acknowledged indexes and votes. Each is the contract of
//! a function that does nothing.
ghost use Rattle.std.specs.Prelude.{◌≡◌, ℕ, Bool, List, true, false, not, ◌&&◌, ◌||◌, ◌==◌, Option, Some, None, is_some};
ghost use Rattle.std.specs.Ordering.{nat_cmp};
ghost use Rattle.std.specs.List.{list_any};
ghost use Rattle.std.specs.List.Sorted.{IsStrictlySortedBy};
ghost use Rattle.quorum_sets.specs.Ids.{Ids, no_ids, has, with_id, without_id, union, ascending, is_empty};
ghost use Rattle.quorum_sets.specs.Voters.{Voters, AreNeighbours};
ghost use Rattle.quorum_sets.specs.Committed.{Acks, AreIndexesOf, IsCommitted, committed_index, committed_of, joint_committed_index, joint_committed_of};
ghost use Rattle.quorum_sets.specs.Votes.{Votes, AreVotesOf, vote_of, vote_result, joint_vote_of, joint_vote_result};
ghost use Rattle.quorum_sets.specs.Overlap.{QuorumsMeet, CommittedMeetsWon};
ghost use Rattle.quorum_sets.specs.Tolerance.{IsMostDown, commits_without, may_be_down, least_minority};

/// The operations on a set of ids, member by member: which ids a set has after a change, which ids a union has, that a
/// set's list has exactly its ids and is strictly ascending, and that two sets with the same ids are equal.
pub fn sets_by_member()
    ensures empty { (id : ℕ) → has no_ids id ≡ false }
    ensures with_one { (ids : Ids) (new id : ℕ)
        → has (with_id ids new) id ≡ ((id == new) || has ids id) }
    ensures without_one { (ids : Ids) (old id : ℕ)
        → has (without_id ids old) id ≡ (not (id == old) && has ids id) }
    ensures united { (one other : Ids) (id : ℕ)
        → has (union one other) id ≡ (has one id || has other id) }
    ensures listed { (ids : Ids) (id : ℕ)
        → has ids id ≡ list_any (λ listed. id == listed) (ascending ids) }
    ensures ascends { (ids : Ids) → IsStrictlySortedBy nat_cmp (ascending ids) }
    ensures equal { (one other : Ids) → ((id : ℕ) → has one id ≡ has other id) → one ≡ other }
{}

/// The committed index is the one number that satisfies its definition by counting.
pub fn committed_by_counting()
    ensures fits { (ids : Ids) (acks : Acks) → IsCommitted ids acks (committed_index ids acks) }
    ensures alone { (ids : Ids) (acks : Acks) (k : ℕ) → IsCommitted ids acks k
        → k ≡ committed_index ids acks }
{}

/// Committed indexes and votes do not depend on which voter has which value: a list that has the value of each voter, in
/// any order, gives the committed index and the result of the vote of the set.
pub fn values_in_any_order()
    ensures committed { (indexes : List ℕ) (ids : Ids) (acks : Acks) → AreIndexesOf indexes ids acks
        → committed_of indexes ≡ committed_index ids acks }
    ensures joint_committed { (incoming outgoing : List ℕ) (voters : Voters) (acks : Acks)
        → AreIndexesOf incoming voters.incoming acks → AreIndexesOf outgoing voters.outgoing acks
        → joint_committed_of incoming outgoing ≡ joint_committed_index voters acks }
    ensures vote { (list : List (Option Bool)) (ids : Ids) (votes : Votes)
        → AreVotesOf list ids votes
        → vote_of list ≡ vote_result ids votes }
    ensures joint_vote { (incoming outgoing : List (Option Bool)) (voters : Voters) (votes : Votes)
        → AreVotesOf incoming voters.incoming votes → AreVotesOf outgoing voters.outgoing votes
        → joint_vote_of incoming outgoing ≡ joint_vote_result voters votes }
{}

/// If two pairs of voter sets are neighbours, each quorum of one shares an id with each quorum of the other (Ongaro's
/// dissertation, 4.1 and 4.3). That a term has at most one leader rests on it, but takes more, which is Raft's part: a
/// server votes once in a term, and one change is made at a time.
pub fn neighbours_overlap()
    ensures before { (before after : Voters) → AreNeighbours before after
        → QuorumsMeet before after }
    ensures after { (before after : Voters) → AreNeighbours before after
        → QuorumsMeet after before }
{}

/// If two pairs of voter sets are neighbours and one of them has committed an index, then in each vote that is won in
/// the other, some id that voted yes has acknowledged that index. That a leader has what was committed before it was
/// elected rests on it, but takes more, which is Raft's part: a server votes for no candidate whose log is less up to
/// date than its own, and one change is made at a time.
pub fn committed_meets_won()
    ensures before { (before after : Voters) → AreNeighbours before after
        → CommittedMeetsWon before after }
    ensures after { (before after : Voters) → AreNeighbours before after
        → CommittedMeetsWon after before }
{}

/// The number of ids that may be down, which is defined over every set of ids, is the smallest surplus over a majority.
/// If every id counts, it is the smallest n - (n/2 + 1) over the voter sets that are not empty: 1 of 3, 1 of 4, 2 of 5.
/// Without incoming voters nothing commits.
pub fn most_down_by_counting()
    ensures fits { (voters : Voters) (uncounted : Ids)
        → IsMostDown voters uncounted (may_be_down voters uncounted) }
    ensures alone { (voters : Voters) (uncounted : Ids) (answer : Option ℕ)
        → IsMostDown voters uncounted answer
        → answer ≡ may_be_down voters uncounted }
    ensures all_count { (voters : Voters) → is_empty voters.incoming ≡ false
        → may_be_down voters no_ids ≡ Some (least_minority voters) }
    ensures no_voter { (voters : Voters) (uncounted : Ids) → is_empty voters.incoming ≡ true
        → may_be_down voters uncounted ≡ None }
    ensures commits { (voters : Voters) (uncounted : Ids)
        → commits_without voters uncounted ≡ is_some (may_be_down voters uncounted) }
{}
