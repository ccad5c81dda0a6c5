//! The members of a configuration: its voters of either kind, and its learners. A next learner is an outgoing voter.
ghost use Rattle.std.specs.Prelude.{◌≡◌, IfOk};
ghost use Rattle.conf_change.specs.Configuration.{is_member, member_ids};

use crate::config::Config;
use quorum_sets::{MemberSet, NoMemory, union};

impl<S: MemberSet> Config<S> {
    /// Whether the id is a member.
    pub fn is_member(&self, id: u64) -> bool
        ensures { result ≡ is_member self.now id }
    {
        self.incoming.contains(id) || self.outgoing.contains(id) || self.learners.contains(id)
    }

    /// All members.
    pub fn members(&self) -> Result<S, NoMemory>
        ensures { IfOk result (λ ids. S.ids ids ≡ member_ids self.now) }
    {
        let voters = union(&self.incoming, &self.outgoing)?;
        union(&voters, &self.learners)
    }
}
