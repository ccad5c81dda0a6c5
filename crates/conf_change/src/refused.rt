//! Why a change is refused.
ghost use Rattle.std.specs.Prelude.{◌≡◌};
ghost use Rattle.conf_change.specs.Text.{refused_text};

use thiserror::Error;

/// Why a change is refused (etcd's `confchange` package; the last is own).
#[derive(Clone, Copy, Debug, PartialEq, Eq, Error)]
#[error("{}", self.text())]
pub enum Refused {
    /// A joint configuration is entered from a joint one, which has to be left first.
    AlreadyJoint,
    /// A joint configuration is entered from one without a voter, so it would have no outgoing voters.
    ZeroVoterJoint,
    /// The configuration to be left is not joint.
    NotJoint,
    /// A simple change is made in a joint configuration, which has to be left first.
    SimpleInJoint,
    /// No voter would be left, or no incoming one in a joint configuration, so nothing could be committed.
    RemovedAllVoters,
    /// A simple change would alter more than one voter. Voters that are added and voters that are removed count
    /// together: `r1 v5` alters two.
    MoreThanOneVoter,
    /// An allocation failed.
    NoMemory,
}

impl Refused {
    // The text of the refusal.
    pub(crate) fn text(self) -> &'static str
        ensures { result.now ≡ refused_text self }
    {
        match self {
            Refused::AlreadyJoint => "config is already joint",
            Refused::ZeroVoterJoint => "can't make a zero-voter config joint",
            Refused::NotJoint => "can't leave a non-joint config",
            Refused::SimpleInJoint => "can't apply simple config change in joint config",
            Refused::RemovedAllVoters => "removed all voters",
            Refused::MoreThanOneVoter => {
                "more than one voter changed without entering joint config"
            }
            Refused::NoMemory => "out of memory",
        }
    }
}

impl From<quorum_sets::NoMemory> for Refused {
    ghost use Rattle.conf_change.specs.declared.refused.Refused.TheVariants.{NoMemory};

    ghost from_gives = { λ _ refused. refused ≡ NoMemory };

    fn from(_error: quorum_sets::NoMemory) -> Refused {
        Refused::NoMemory
    }
}
