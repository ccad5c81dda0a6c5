//! The floor: the smallest initial next index. The leader sends a new member the log from the last index on, or from
//! the floor if the log is shorter.
ghost use Rattle.std.specs.Prelude.{◌≡◌};
ghost use Rattle.conf_change.specs.Floor.{fresh_next};

/// The smallest initial next index: that of a new member while the log is empty (own). etcd 3.4 has no floor: its
/// initial next index is the last index, as with `Zero`.
#[derive(Clone, Copy, Debug, PartialEq, Eq)]
pub enum Floor {
    /// The initial next index is the last index, even if that is 0.
    Zero,
    /// The initial next index is at least 1, the index of the first entry of a log.
    One,
}

impl Floor {
    // The initial next index of a new member: the last index, or the floor if that is greater.
    pub(crate) fn fresh_next(self, last_index: u64) -> u64
        ensures { result ≡ fresh_next self last_index }
    {
        match self {
            Floor::Zero => last_index,
            Floor::One => last_index.max(1),
        }
    }
}
