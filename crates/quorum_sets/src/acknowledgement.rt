//! Which index of the log each server has acknowledged. A leader counts these to find the committed index.
ghost use Rattle.std.specs.Prelude.{◌≡◌};
ghost use Rattle.std.specs.FinMap as finite;
ghost use Rattle.quorum_sets.specs.Committed.{Acks};

use std::collections::BTreeMap;

/// The acknowledged indexes: a finite map from ids to indexes (`AckedIndexer` of etcd's package `quorum`). An id that
/// is not in the map is a server from which nothing has been heard.
pub trait AckSource {
    /// The acknowledged indexes, by id.
    ghost acks: { Self → Acks };

    /// The index that the id acknowledged, or `None` if it is unknown.
    fn acked(&self, id: u64) -> Option<u64>
        ensures { result ≡ finite.get (acks self.now) id };
}

#[tactic(auto, using(crate::proofs::IdSets::Members::entries_steps))]
impl AckSource for BTreeMap<u64, u64> {
    ghost acks = { λ map. finite.from_entries map.entries };

    fn acked(&self, id: u64) -> Option<u64> {
        self.get(&id).copied()
    }
}
