//! No two servers commit different entries: Raft with membership changes, by the rules and the theorem alone. The crate
//! has no code; its laws are about every cluster whose servers keep these rules, whatever is lost, late or doubled.
//!
//! # The rules
//!
//! 1. A server's term never falls, and it campaigns only in a later one. It ignores requests for votes, appends and
//!    heartbeats of an earlier term; by any other, its term becomes theirs.
//! 2. A server votes once a term, for a candidate whose log is at least as up to date as its own.
//! 3. A candidate that has a quorum of votes leads; it counts by a part of its log that it knew to be committed when it
//!    campaigned, and that has all changes of the voters but the last.
//! 4. A leader appends entries of its own term.
//! 5. A server takes a leader's log up to some index in place of its own, if it does not have that already, and
//!    acknowledges that. Maybe it learns how much of it the leader has committed.
//! 6. A leader commits up to an entry of its own term once a quorum has acknowledged that in this term; it counts by a part
//!    of its log that it has committed, and that has all changes of the voters up to that entry but the last. It may take
//!    over what its server knows to be committed, while that is in its term.
//! 7. A restart keeps the term, the votes and the log. It may forget what is committed.
//!
//! They are the rules of a raft in which a configuration is in force when its entry is applied, as etcd's. In Ongaro's
//! dissertation it is when the entry is appended, which is another rule, and not covered.
//!
//! # The theorem
//!
//! If each server keeps these rules, a term has one leader, a leader has all that was committed in earlier terms, and no
//! two servers ever commit different entries at one index.
//!
//! # Why it is true
//!
//! One server may count by the newest configuration while another still counts by the oldest, and quorums of these need
//! not share a member. Raft's own argument only asks that the quorum that elects a leader and the quorum that committed an
//! entry share a server. How do they, then?
//!
//! Count the changes of the voters in a log. Two logs, one the beginning of the other, whose counts differ by at most one
//! have the same voters or neighbours, so their quorums meet: that is what `conf_change` proves of its steps. Nothing else
//! is used of configurations.
//!
//! **Who wins an election is at most one change behind all that was committed in earlier terms.** Let a candidate count
//! by the configuration after n changes, and suppose that change n+2 was committed before:
//!
//! ```text
//!              change n+1             change n+2
//!  log  ----------+----------------------+-------->
//!        n            n+1                    n+2      changes so far
//!        |             |
//!        |             whoever committed change n+2 counted here: beyond it is the last change alone (rule 6)
//!        the candidate counts here
//! ```
//!
//! The two configurations are neighbours, so some server acknowledged change n+2 and voted for the candidate. It votes for
//! a log that has what it has itself (rule 2), so both changes are in the candidate's log. But at most one change there is
//! beyond what the candidate counts by (rule 3): so it counts by n+1 changes at least, and not by n.
//!
//! *A leader has all that was committed in earlier terms.* Whoever committed an entry counted at most one change behind
//! it (rule 6), and whoever won a later election did too, as was just seen. So the two quorums meet, and the server in
//! both voted for a log that has the entry: Raft's own argument.
//!
//! *A term has one leader.* What each of two winners counted by was committed in earlier terms, so each is at most one
//! change behind the other. The two quorums meet, and the server in both votes once.
//!
//! *No two servers commit different entries.* Each leader's log goes on from what was committed before, so all that is
//! ever committed is one log.
//!
//! # Where to read on
//!
//! `specs/` is what has to be believed: what a log is (`Logs`), the configuration after it (`Configurations`), the state
//! of a cluster (`Cluster`), the rules, and what of etcd's raft they stand for (`Steps`), what a run is (`Runs`), and what is
//! claimed (`Claims`).
//! A run in which a voter is added is worked out in the crate `safety_examples`, and so is what goes wrong without a rule.
//!
//! The second law is about the rules as etcd's raft means them, in which a server sees no log but its own: appends,
//! heartbeats and snapshots (`EtcdCluster`, `EtcdRules`, `EtcdRuns`, `Appending`). Who counts does not look into its log,
//! but counts by what it has *applied*, and rules 3 and 6 follow: a leader proposes a change of the voters only once it has
//! applied all earlier ones, a server campaigns only once it has applied those that it knows to be committed, each append
//! has the leader's commit index, and where an append changes a log, that index is durable with it.
//!
//! Or it looks into its log after all, before each campaign: if at most one change there is not applied, it may forget what is
//! committed, and need not have applied what it knows of that (`IsReady`).
//!
//! The third law takes memory and disk apart (`DiskCluster`, `DiskRules`, `DiskRuns`): a server works in memory, and a
//! crash loses what is not saved. It says what has to be saved before it is said, sent or applied, and what need not be.
//!
//! The fourth has two rules in place of all those on the configuration in force (`Waiting`): a change of the voters is
//! proposed once every member has stored the ones before, and a server becomes a member, which may campaign and commit, once
//! it has stored all but the last. Where memory and disk are apart, and only members propose changes of the voters, who waits
//! keeps the rules of servers that look at their log (`WaitingOnDisk`). Two more tie the library to the rules: what it counts
//! are the quorums that they speak of, and a `Changer` has the configuration after a log (`Library`).
#![tactic(auto)]

pub mod laws;
