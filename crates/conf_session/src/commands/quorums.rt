//! The commands that ask what a quorum has decided: `commit-index` asks about the current configuration, `committed`
//! and `vote` about a quorum that the arguments name. The latter two are commands of the tests of etcd's package
//! `quorum`.
ghost use Rattle.std.specs.Prelude.{◌≡◌, ◌++◌, OnOk};
ghost use Rattle.conf_session.specs.Commands.{committed_by};
ghost use Rattle.conf_session.specs.Quorum.{committed_reply, index_text, vote_reply, vote_text, wrong_number_text};
ghost use Rattle.conf_session.specs.ReplyTexts.{line};

use crate::reply_texts::{append_index, append_line};
use crate::session_ids::SessionIds;
use crate::values::Values;
use crate::values_by_id::ValuesById;
use conf_change::Tracker;
use quorum_sets::{MemberSet, NoMemory, VoteResult, joint_chart, joint_committed, joint_vote};

/// Prints the index that the configuration commits if each member has acknowledged its match index.
pub(super) fn commit_index(
    text: &mut Vec<u8>,
    tracker: &Tracker<SessionIds>,
) -> Result<(), NoMemory>
    ensures { OnOk result (text.new.items ≡ text.old.items
        ++ line (index_text (committed_by tracker.now))) }
{
    let config = tracker.config();
    let index = joint_committed(
        *text.allocator(),
        &config.incoming,
        &config.outgoing,
        tracker,
    )?;
    append_index(text, index)
}

/// Prints the chart and the committed index of the named quorum.
pub(super) fn committed(text: &mut Vec<u8>, values: &Values) -> Result<(), NoMemory>
    ensures { OnOk result (text.new.items ≡ text.old.items ++ line (committed_reply values.now)) }
{
    let alloc = *text.allocator();
    let Some(acks) = ValuesById::new(alloc, values, values.indexes.as_slice())? else {
        return append_wrong_number(text);
    };
    let incoming = SessionIds::of_list(alloc, values.incoming.as_slice())?;
    let outgoing = SessionIds::of_list(alloc, values.outgoing.as_slice())?;
    joint_chart(text, &incoming, &outgoing, &acks)?;
    let index = joint_committed(alloc, &incoming, &outgoing, &acks)?;
    append_index(text, index)
}

/// Prints the result of the vote of the named quorum.
pub(super) fn vote(text: &mut Vec<u8>, values: &Values) -> Result<(), NoMemory>
    ensures { OnOk result (text.new.items ≡ text.old.items ++ line (vote_reply values.now)) }
{
    let alloc = *text.allocator();
    let Some(votes) = ValuesById::new(alloc, values, values.votes.as_slice())? else {
        return append_wrong_number(text);
    };
    let incoming = SessionIds::of_list(alloc, values.incoming.as_slice())?;
    let outgoing = SessionIds::of_list(alloc, values.outgoing.as_slice())?;
    let name = vote_name(joint_vote(&incoming, &outgoing, &votes));
    append_line(text, b"", name)
}

// The name of a result in etcd's package `quorum`.
fn vote_name(vote: VoteResult) -> &'static [u8]
    ensures { result.now ≡ vote_text vote }
{
    match vote {
        VoteResult::VotePending => b"VotePending",
        VoteResult::VoteLost => b"VoteLost",
        VoteResult::VoteWon => b"VoteWon",
    }
}

// Prints that there is not one value for each id.
fn append_wrong_number(text: &mut Vec<u8>) -> Result<(), NoMemory>
    ensures { OnOk result (text.new.items ≡ text.old.items ++ line wrong_number_text) }
{
    append_line(text, b"wrong number of values", b"")
}
