//! The result of a vote, as etcd's package `quorum` counts it.
//!
//! A candidate wins once a majority has voted yes, and loses once the voters that have not voted no are no longer a
//! majority:
//!
//! ```text
//! (1 2 3 4)   1 yes, 2 yes           pending
//!             1 yes, 2 yes, 3 yes    won
//!             1 no, 2 no             lost, since 3 and 4 are not a majority
//! ```
ghost use Rattle.std.specs.Prelude.{◌≡◌, Bool, List, Option};
ghost use Rattle.quorum_sets.specs.Ids.{count_of, size};
ghost use Rattle.quorum_sets.specs.Voters.{pair};
ghost use Rattle.quorum_sets.specs.Votes.{is_yes, may_be_yes, vote_result, joint_vote_result, both, Counts, tally_result, vote_of, joint_vote_of};

use crate::majority::quorum;
use crate::member_set::MemberSet;
use crate::vote_source::VoteSource;

/// The result of a vote (`VoteResult` of etcd's package `quorum`).
#[derive(Clone, Copy, Debug, PartialEq, Eq)]
pub enum VoteResult {
    /// Neither won nor lost: it depends on ids that have not voted.
    VotePending,
    /// At most half voted yes or have not voted, so it can no longer be won.
    VoteLost,
    /// More than half voted yes, or the set is empty.
    VoteWon,
}

/// The result of the vote of one set (`MajorityConfig.VoteResult` of etcd's package `quorum`). The vote of the empty
/// set is won, so that a joint configuration without outgoing voters votes as its incoming voters do.
pub fn vote<S: MemberSet, V: VoteSource>(set: &S, votes: &V) -> VoteResult
    ensures { result ≡ vote_result (S.ids set.now) (V.votes votes.now) }
{
    count_votes(set, votes).result()
}

/// The votes of a set of voters, counted.
#[derive(Clone, Copy, Debug)]
pub struct Tally {
    /// How many voters there are.
    pub voters: usize,
    /// How many of them voted yes.
    pub yes_votes: usize,
    /// How many voted yes or have not voted.
    pub possible_yes_votes: usize,
}

impl Tally {
    /// The result of the vote. It is won if there are no voters (`MajorityConfig.VoteResult` of etcd's package
    /// `quorum`).
    pub fn result(self) -> VoteResult
        ensures counted { result ≡ tally_result self }
        ensures listed { (list : List (Option Bool)) → Counts self list → result ≡ vote_of list }
    {
        if self.voters == 0 || self.yes_votes >= quorum(self.voters) {
            VoteResult::VoteWon
        } else if self.possible_yes_votes >= quorum(self.voters) {
            VoteResult::VotePending
        } else {
            VoteResult::VoteLost
        }
    }
}

// Counts the votes of a set.
fn count_votes<S: MemberSet, V: VoteSource>(set: &S, votes: &V) -> Tally
    ensures voters { result.voters ≡ size (S.ids set.now) }
    ensures yes_votes { result.yes_votes ≡ count_of (is_yes (V.votes votes.now)) (S.ids set.now) }
    ensures possible_yes_votes { result.possible_yes_votes
        ≡ count_of (may_be_yes (V.votes votes.now)) (S.ids set.now) }
{
    let voters = set.len();
    let mut yes_votes = 0;
    let mut possible_yes_votes = 0;
    for position in 0..voters {
        if let Some(id) = set.at(position) {
            let vote = votes.voted(id);
            yes_votes += usize::from(vote.unwrap_or(false));
            possible_yes_votes += usize::from(vote.unwrap_or(true));
        }
    }
    Tally {
        voters,
        yes_votes,
        possible_yes_votes,
    }
}

/// The result of the vote of a joint configuration: won if both sets win it, lost if one loses it, else pending
/// (`JointConfig.VoteResult` of etcd's package `quorum`).
pub fn joint_vote<S: MemberSet, V: VoteSource>(incoming: &S, outgoing: &S, votes: &V) -> VoteResult
    ensures { result
        ≡ joint_vote_result (pair (S.ids incoming.now) (S.ids outgoing.now)) (V.votes votes.now) }
{
    joint_result(vote(incoming, votes), vote(outgoing, votes))
}

/// The result of a joint vote from those of its two sets: won if both sets win it, lost if one loses it, else pending
/// (`JointConfig.VoteResult` of etcd's package `quorum`).
pub fn joint_result(incoming: VoteResult, outgoing: VoteResult) -> VoteResult
    ensures both { result ≡ both incoming outgoing }
    ensures listed { (first second : List (Option Bool)) → incoming ≡ vote_of first
        → outgoing ≡ vote_of second
        → result ≡ joint_vote_of first second }
{
    match (incoming, outgoing) {
        (VoteResult::VoteWon, other) | (other, VoteResult::VoteWon) => other,
        (VoteResult::VoteLost, _) | (_, VoteResult::VoteLost) => VoteResult::VoteLost,
        (VoteResult::VotePending, VoteResult::VotePending) => VoteResult::VotePending,
    }
}
