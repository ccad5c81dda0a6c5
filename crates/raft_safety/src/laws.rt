//! What is true of every cluster whose servers keep the rules of `specs/Steps.antt`. Each law is the contract of a
//! function that does nothing.
ghost use Rattle.std.specs.Prelude.{◌≡◌, ◌≤◌, ℕ, List, false, true};
ghost use Rattle.quorum_sets.specs.Ids.{no_ids, is_empty};
ghost use Rattle.quorum_sets.specs.Committed.{Acks, acked_index, joint_committed_index};
ghost use Rattle.quorum_sets.specs.Votes.{Votes, is_yes, joint_vote_result};
ghost use Rattle.quorum_sets.specs.declared.voting.VoteResult.TheVariants.{VoteWon};
ghost use Rattle.conf_change.specs.Changer.{ChangerState};
ghost use Rattle.conf_change.specs.Configuration.{Configuration};
ghost use Rattle.raft_safety.specs.Logs.{Log};
ghost use Rattle.raft_safety.specs.Configurations.{configuration_after, voters_after};
ghost use Rattle.raft_safety.specs.Library.{HasQuorum, changer_after_log};
ghost use Rattle.raft_safety.specs.Cluster.{Leads, new_cluster};
ghost use Rattle.raft_safety.specs.Steps.{Action, AfterEachRun, AreAllowed, AtTwoMoments, after_actions};
ghost use Rattle.raft_safety.specs.EtcdRuns.{AfterEachEtcdRun, AtTwoEtcdMoments};
ghost use Rattle.raft_safety.specs.EtcdClaims.{AppliedIsCommitted, ApplyOneLog};
ghost use Rattle.raft_safety.specs.Waiting.{AfterEachWaitingRun, AtTwoWaitingMoments};
ghost use Rattle.raft_safety.specs.WaitingOnDisk.{AreAllowedWaitingOnDisk, WaitingDiskAction, done, new_waiting_disks};
ghost use Rattle.raft_safety.specs.DiskCluster.{new_disk_cluster};
ghost use Rattle.raft_safety.specs.DiskRuns.{AfterEachDiskRun, AreAllowedOnDisk, AtTwoDiskMoments};
ghost use Rattle.raft_safety.specs.DiskClaims.{AreGivenOneLog, KnowOneLog};
ghost use Rattle.raft_safety.specs.Claims.{ElectionSafety, LeaderCompleteness, LogMatching, CommittedIsStored, StateMachineSafety, CommitOneLog};

use quorum_sets::laws::committed_by_counting;

/// Whatever the servers do, in whatever order, and whatever is lost, doubled or delayed: if each keeps the rules, a term
/// has one leader, a leader has what was committed in earlier terms, and no two servers commit different entries at an
/// index, at the same moment or one later.
pub fn no_two_servers_commit_different_entries()
    ensures election_safety { AfterEachRun ElectionSafety }
    ensures leader_completeness { AfterEachRun LeaderCompleteness }
    ensures log_matching { AfterEachRun LogMatching }
    ensures stored { AfterEachRun CommittedIsStored }
    ensures state_machine_safety { AtTwoMoments StateMachineSafety }
    ensures one_log { AtTwoMoments CommitOneLog }
{}

/// A cluster that begins without incoming voters elects no leader, whatever its servers do; so nothing is ever committed.
pub fn no_leader_without_voters()
    ensures { (first : Configuration) (actions : List Action) → first.incoming ≡ no_ids
        → AreAllowed first new_cluster actions → (term leader : ℕ)
        → ¬ Leads (after_actions new_cluster actions) term leader }
{}

/// The same holds of servers that keep the rules as etcd's raft means them (`specs/EtcdRules.antt`): with appends,
/// heartbeats and restarts, and votes and acknowledgements counted by the configuration that is applied. Any of them may look
/// at their own log before each campaign, in place of applying and keeping what they know to be committed. A term has one
/// leader, a leader has what was committed in earlier terms, no two servers commit different entries at an index, and
/// no two that lead or campaign have applied different ones.
pub fn servers_that_keep_etcds_rules_commit_the_same()
    ensures election_safety { AfterEachEtcdRun (λ end. ElectionSafety end.cluster) }
    ensures leader_completeness { AfterEachEtcdRun (λ end. LeaderCompleteness end.cluster) }
    ensures log_matching { AfterEachEtcdRun (λ end. LogMatching end.cluster) }
    ensures stored { AfterEachEtcdRun (λ end. CommittedIsStored end.cluster) }
    ensures state_machine_safety { AtTwoEtcdMoments (λ early late.
        StateMachineSafety early.cluster late.cluster) }
    ensures one_log { AtTwoEtcdMoments (λ early late. CommitOneLog early.cluster late.cluster) }
    ensures applied { AfterEachEtcdRun AppliedIsCommitted }
    ensures one_applied_log { AtTwoEtcdMoments ApplyOneLog }
{}

/// The same holds where memory and disk are apart (`specs/DiskRules.antt`): a server works in memory, saves the oldest of
/// what it did as one, and loses the rest in a crash; a leader counts its own server at once. It says a request for votes, a
/// vote or an acknowledgement only when that is saved, uses a commit index for which its own server was counted only when that
/// has saved the entries, keeps a commit index on disk with at most one change of the voters after it, and restarts with the
/// configuration of what it has applied. If it looks at its own log before each campaign, the commit index on disk may be any
/// older one. Then the claims hold of disks and leaders; servers know one log to be committed, also in memory; and no
/// application is given other entries than another, or than itself before a crash.
pub fn servers_that_save_before_they_say_commit_the_same()
    ensures election_safety { AfterEachDiskRun (λ end. ElectionSafety end.disk.cluster) }
    ensures leader_completeness { AfterEachDiskRun (λ end. LeaderCompleteness end.disk.cluster) }
    ensures log_matching { AfterEachDiskRun (λ end. LogMatching end.disk.cluster) }
    ensures stored { AfterEachDiskRun (λ end. CommittedIsStored end.disk.cluster) }
    ensures state_machine_safety { AtTwoDiskMoments (λ early late.
        StateMachineSafety early.disk.cluster late.disk.cluster) }
    ensures one_log { AtTwoDiskMoments (λ early late.
        CommitOneLog early.disk.cluster late.disk.cluster) }
    ensures one_given_log { AtTwoDiskMoments AreGivenOneLog }
    ensures one_known_log { AtTwoDiskMoments KnowOneLog }
{}

/// Waiting is enough (`specs/Waiting.antt`): if a change of the voters is proposed only when each member has applied the ones
/// before and stored that, and a server becomes a member only when it has stored all but the last, then members may count by
/// any configuration between what they have stored and what they know, and forget in a crash what else they knew to be
/// committed. The claims hold of all that servers ever knew.
pub fn waiting_is_enough()
    ensures election_safety { AfterEachWaitingRun (λ end. ElectionSafety end.cluster) }
    ensures leader_completeness { AfterEachWaitingRun (λ end. LeaderCompleteness end.cluster) }
    ensures state_machine_safety { AtTwoWaitingMoments (λ early late.
        StateMachineSafety early.cluster late.cluster) }
    ensures one_log { AtTwoWaitingMoments (λ early late. CommitOneLog early.cluster late.cluster) }
{}

/// Waiting is enough where memory and disk are apart, too (`specs/WaitingOnDisk.antt`): members that wait, and look neither at
/// their log nor at what they know to be committed, keep the rules of servers that look at their own log, if only members
/// propose changes of the voters. So the claims above hold of them.
pub fn members_that_wait_need_not_look()
    ensures { (first : Configuration) (actions : List WaitingDiskAction)
        → AreAllowedWaitingOnDisk first new_waiting_disks actions
        → AreAllowedOnDisk first (new_disk_cluster (λ server. true)) (done actions) }
{}

/// What the library counts are the quorums of the rules, after any log that leaves an incoming voter: a vote that is won was
/// won by one, and an index up to the committed one was acknowledged by one.
pub fn counts_are_of_quorums()
    ensures votes { (first : Configuration) (log : Log) (votes : Votes)
        → is_empty (voters_after first log).incoming ≡ false
        → joint_vote_result (voters_after first log) votes ≡ VoteWon
        → HasQuorum first log (λ id. is_yes votes id ≡ true) }
    ensures acknowledgements { (first : Configuration) (log : Log) (acks : Acks) (index : ℕ)
        → is_empty (voters_after first log).incoming ≡ false
        → index ≤ joint_committed_index (voters_after first log) acks
        → HasQuorum first log (λ id. index ≤ acked_index acks id) }
{
    committed_by_counting();
}

/// A `Changer` that takes the steps of a log, and stays as it is where one is refused, has the configuration after that log.
pub fn changers_have_the_configuration()
    ensures { (before : ChangerState) (log : Log)
        → (changer_after_log before log).tracker.config
        ≡ configuration_after before.tracker.config log }
{}
