//! Majorities of a set, and quorums of a pair of sets. Any two majorities of a set overlap, since their sizes add up to
//! more than the size of the set; the safety of Raft rests on this.
ghost use Rattle.std.specs.Prelude.{◌≡◌};
ghost use Rattle.quorum_sets.specs.Voters.{majority, pair, is_quorum};

use crate::counting::majority_passes;
use crate::member_set::MemberSet;

/// The size of a majority of `n` voters: 2 of 3, 3 of 4, 3 of 5. For no voters it is 1, so the empty set has no
/// majority.
pub fn quorum(n: usize) -> usize
    ensures { result ≡ majority n }
{
    n / 2 + 1
}

/// Whether the ids are a quorum of a pair of incoming and outgoing voters (Ongaro's dissertation, 4.3): more than half
/// of the incoming voters and, if there are outgoing voters, more than half of these. Ids that are not voters do not
/// count. In (2 3 4)&&(1 2 3) the ids 2 and 3 are a quorum, and 1 and 4 are not.
pub fn is_quorum<S: MemberSet>(voters: (&S, &S), ids: &S) -> bool
    ensures { result
        ≡ is_quorum (pair (S.ids voters.entry.0.now) (S.ids voters.entry.1.now)) (S.ids ids.now) }
{
    let (incoming, outgoing) = voters;
    majority_passes(incoming, |id| ids.contains(id))
        && (outgoing.len() == 0 || majority_passes(outgoing, |id| ids.contains(id)))
}
