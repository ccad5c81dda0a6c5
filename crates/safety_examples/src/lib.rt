//! Small runs of clusters, which show what the rules of `raft_safety` allow, and what goes wrong without each of them. The
//! crate has no code. A run without a rule leaves out one field of one guard: each of its actions is allowed, but for one, of
//! whose guard all but that field holds; and in the end a claim is false. So each of these rules is needed, and the claims do
//! not hold of just anything.
//!
//! | File of `proofs/` | Runs |
//! |---|---|
//! | `AllowedRuns` | a voter is added; one is removed by a joint change |
//! | `WithoutARule` | without each field of the guards of `Steps` |
//! | `EtcdRuns` | a voter is added by messages; a server looks at its log; without `one_at_a_time`, `ready`, `matches` |
//! | `DiskRuns` | a commit index is used once it is saved; servers look; without `saved`, `own_saved`, `commit_kept`, `configuration_of_applied` |
//! | `WaitingRuns` | changes wait for the members |
//! | `CountedChanges` | which entries count as changes of the voters |
#![tactic(auto)]
