//! The votes that servers have cast in an election.
ghost use Rattle.std.specs.Prelude.{◌≡◌};
ghost use Rattle.std.specs.FinMap as finite;
ghost use Rattle.quorum_sets.specs.Votes.{Votes, votes_in};

use std::collections::BTreeMap;

/// The votes: a finite map from ids to yes or no (the map that etcd's `VoteResult` takes). An id that is not in the map
/// has not voted yet.
pub trait VoteSource {
    /// The votes, by id.
    ghost votes: { Self → Votes };

    /// The vote of the id, or `None` if it has not voted.
    fn voted(&self, id: u64) -> Option<bool>
        ensures { result ≡ finite.get (votes self.now) id };
}

#[tactic(auto, using(crate::proofs::IdSets::Members::entries_steps))]
impl VoteSource for BTreeMap<u64, bool> {
    ghost votes = { votes_in };

    fn voted(&self, id: u64) -> Option<bool> {
        self.get(&id).copied()
    }
}
