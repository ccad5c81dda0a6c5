//! How many voters may be down. A cluster keeps serving as long as a majority is up, so of n voters n - (n/2 + 1) may be
//! down: 1 of 3, 1 of 4, 2 of 5. A joint configuration needs a majority of each set, so the smaller number counts.
ghost use Rattle.std.specs.Prelude.{◌≡◌};
ghost use Rattle.quorum_sets.specs.Voters.{pair};
ghost use Rattle.quorum_sets.specs.Tolerance.{IsMostDown, commits_without, may_be_down, surplus};

use crate::counting::count_where;
use crate::majority::quorum;
use crate::member_set::MemberSet;

/// The greatest number of ids that may be down, whichever they are, while the other voters are still a quorum of the
/// pair of incoming and outgoing voters. Uncounted ids, such as members whose logs are still empty, never count towards
/// a quorum. `None` if the counted voters are not a quorum even when all are up: the cluster stalls (own; quorums
/// are those of Ongaro's dissertation, 4.3).
///
/// ```text
/// (1 2 3 4)                    1: three of four are a quorum
/// (1 2 3 4), 4 uncounted       0: 1, 2 and 3 have to be up
/// (1 2 3 4), 3 and 4 uncounted none: 1 and 2 are not a quorum
/// ```
pub fn may_be_down<S: MemberSet>(voters: (&S, &S), uncounted: &S) -> Option<usize>
    ensures most { IsMostDown (pair (S.ids voters.entry.0.now) (S.ids voters.entry.1.now))
        (S.ids uncounted.now) result }
    ensures counted { result
        ≡ may_be_down (pair (S.ids voters.entry.0.now) (S.ids voters.entry.1.now))
        (S.ids uncounted.now) }
{
    let (incoming, outgoing) = voters;
    let of_incoming = surplus(incoming, uncounted)?;
    if outgoing.len() == 0 {
        return Some(of_incoming);
    }
    Some(of_incoming.min(surplus(outgoing, uncounted)?))
}

/// Whether the voters that are not in `uncounted` are a quorum of the pair of incoming and outgoing voters, so that they
/// commit while those in `uncounted` are down or have empty logs (own).
pub fn commits_without<S: MemberSet>(voters: (&S, &S), uncounted: &S) -> bool
    ensures { result ≡ commits_without (pair (S.ids voters.entry.0.now) (S.ids voters.entry.1.now))
        (S.ids uncounted.now) }
{
    may_be_down(voters, uncounted).is_some()
}

// By how many the counted ids of the set exceed a majority; `None` if they are not a majority.
fn surplus<S: MemberSet>(set: &S, uncounted: &S) -> Option<usize>
    ensures { result ≡ surplus (S.ids set.now) (S.ids uncounted.now) }
{
    let counted = count_where(set, |id| !uncounted.contains(id));
    counted.checked_sub(quorum(set.len()))
}
