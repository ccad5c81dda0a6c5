//! Committed indexes and results of votes, from one value for each voter, and how many ids may be down, for a pair of
//! voter sets. A program that embeds the library looks the values of its voters up itself, so nothing is allocated:
//!
//! ```text
//! incoming 7 5 4                ->  committed 5
//! incoming yes no not-voted     ->  pending
//! incoming 1 2 3, down 3        ->  0 may be down
//! ```
ghost use Rattle.std.specs.Prelude.{◌≡◌, ◌⊎◌, map, IfOk};
ghost use Rattle.std.specs.List.{list_all};
ghost use Rattle.quorum_sets.specs.Committed.{joint_committed_of};
ghost use Rattle.quorum_sets.specs.Votes.{Counts};
ghost use Rattle.confscript_c.specs.Answer.{no_memory};
ghost use Rattle.confscript_c.specs.Quorums as spec;
ghost use Rattle.confscript_c.specs.Quorums.{vote_answer, may_be_down_answer, ballot, is_ballot};

use crate::answer::Answer;
use crate::status::Status;
use quorum_sets::{
    InlineIds, MemberSet, NoMemory, Tally, VoteResult, joint_committed_of, joint_result,
    may_be_down,
};
use std::alloc::Global;

/// The committed index of a pair of voter sets, or of one set if `outgoing` is empty, from the index that each voter
/// has acknowledged, 0 if it is unknown. It is the greatest `u64` if there are no voters. The call takes no memory and is
/// never refused (etcd's `quorum`).
#[unsafe(no_mangle)]
pub extern "C" fn confscript_committed(incoming: &[u64], outgoing: &[u64]) -> u64
    ensures { result ≡ joint_committed_of incoming.now outgoing.now }
{
    joint_committed_of(incoming, outgoing)
}

/// The result of a vote by a pair of voter sets, or by one set if `outgoing` is empty: 0 pending, 1 lost, 2 won. Each
/// byte is the vote of a voter: 0 no, 1 yes, 2 if it has not voted. The vote is won if there are no voters. It is
/// refused if a byte is none of these, and takes no memory (etcd's `quorum`).
#[unsafe(no_mangle)]
pub extern "C" fn confscript_vote(incoming: &[u8], outgoing: &[u8]) -> Answer
    ensures { result ≡ vote_answer incoming.now outgoing.now }
{
    if !are_ballots(incoming) || !are_ballots(outgoing) {
        return Answer::new(Status::BadVote, 0);
    }
    let result = joint_result(tally(incoming).result(), tally(outgoing).result());
    Answer::done(vote_number(result))
}

// Whether each byte is a vote: 0, 1 or 2.
fn are_ballots(votes: &[u8]) -> bool
    ensures { result ≡ list_all is_ballot votes.now }
{
    votes.iter().all(|byte| *byte <= 2)
}

// Counts the votes of one set.
fn tally(votes: &[u8]) -> Tally
    ensures { Counts result (map ballot votes.now) }
{
    let voters = votes.len();
    let mut yes_votes = 0;
    let mut possible_yes_votes = 0;
    for byte in votes {
        let vote = ballot(*byte);
        yes_votes += usize::from(vote.unwrap_or(false));
        possible_yes_votes += usize::from(vote.unwrap_or(true));
    }
    Tally {
        voters,
        yes_votes,
        possible_yes_votes,
    }
}

// The vote that a byte encodes, or `None` for a voter that has not voted.
fn ballot(byte: u8) -> Option<bool>
    ensures { result ≡ ballot byte }
{
    match byte {
        0 => Some(false),
        1 => Some(true),
        _ => None,
    }
}

// The number of a result in `enum confscript_vote_result`.
fn vote_number(vote: VoteResult) -> u64
    ensures { result ≡ spec.vote_number vote }
{
    match vote {
        VoteResult::VotePending => 0,
        VoteResult::VoteLost => 1,
        VoteResult::VoteWon => 2,
    }
}

/// How many ids may be down, whichever they are, while the other voters are still a quorum. Those in `down`, such as
/// members whose logs are empty, never count for a quorum. The call is refused if the voters are no quorum even with
/// none down (own).
#[unsafe(no_mangle)]
pub extern "C" fn confscript_may_be_down(
    alloc: Global,
    incoming: &[u64],
    outgoing: &[u64],
    down: &[u64],
) -> Answer
    ensures { (result ≡ no_memory)
        ⊎ (result ≡ may_be_down_answer incoming.now outgoing.now down.now) }
{
    may_be_down_answer(alloc, incoming, outgoing, down).unwrap_or(Answer::no_memory())
}

// The answer of `confscript_may_be_down`, as a result, so that `?` returns `NoMemory` early.
fn may_be_down_answer(
    alloc: Global,
    incoming: &[u64],
    outgoing: &[u64],
    down: &[u64],
) -> Result<Answer, NoMemory>
    ensures { IfOk result (λ answer. answer
        ≡ may_be_down_answer incoming.now outgoing.now down.now) }
{
    let incoming = InlineIds::of_list(alloc, incoming)?;
    let outgoing = InlineIds::of_list(alloc, outgoing)?;
    let down = InlineIds::of_list(alloc, down)?;
    Ok(count_answer(may_be_down((&incoming, &outgoing), &down)))
}

// The answer for a count; `NoQuorum` if there is none.
fn count_answer(count: Option<usize>) -> Answer
    ensures { result ≡ spec.count_answer count }
{
    match count {
        Some(count) => Answer::done(count as u64),
        None => Answer::new(Status::NoQuorum, 0),
    }
}
