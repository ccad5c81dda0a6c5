//! The progress of a member: how much of the log it has, as far as the leader knows.
ghost use Rattle.std.specs.Prelude.{◌≡◌, ◌<◌, ◌-◌, ◌^◌, false};
ghost use Rattle.conf_change.specs.Progress.{fresh_progress};
ghost use Rattle.conf_change.specs.Acknowledgement.{acknowledged};

/// The progress of a member in replicating the log (etcd's `tracker.Progress`). Match is below next, or with floor zero
/// at most next: the entries from match + 1 to next - 1 may be on their way to the member.
#[derive(Clone, Copy, Debug, PartialEq, Eq)]
pub struct Progress {
    /// Match: the greatest index up to which the member is known to have the log, 0 if none is known.
    pub matched: u64,
    /// The index of the next entry to send to the member, at least the floor.
    pub next: u64,
    /// Whether the member is a learner.
    pub learner: bool,
}

impl Progress {
    // The progress of a new voter with this initial next index: nothing is known of its log.
    pub(crate) fn fresh(next_index: u64) -> Progress
        ensures { result ≡ fresh_progress next_index false }
    {
        Progress {
            matched: 0,
            next: next_index,
            learner: false,
        }
    }

    // The progress after an index is acknowledged. An index that is not above match comes late and changes nothing.
    pub(crate) fn acknowledged(self, index: u64) -> Progress
        requires { index < 2 ^ 64 - 1 }
        ensures { result ≡ acknowledged index self }
    {
        if index <= self.matched {
            return self;
        }
        Progress {
            matched: index,
            next: self.next.max(index + 1),
            ..self
        }
    }
}

impl Default for Progress {
    ghost is_default = { λ p. p ≡ fresh_progress 1 false };

    /// The progress of a new voter while the log is empty, with floor one.
    fn default() -> Progress {
        Progress::fresh(1)
    }
}
