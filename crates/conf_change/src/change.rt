//! Changes of a configuration, and lists of them. `v4` makes 4 a voter, `l4` a learner, and `r4` removes it.
ghost use Rattle.std.specs.Prelude.{◌≡◌, IfOk};

use quorum_sets::NoMemory;
use std::marker::Model;

/// What a change does to the id that it names (etcd's `raftpb.ConfChangeType`).
#[derive(Clone, Copy, Debug, Default, PartialEq, Eq)]
pub enum Kind {
    /// Makes it a voter, written `v`.
    Voter,
    /// Makes it a learner, written `l`.
    Learner,
    /// Removes it from the configuration, written `r`.
    Remove,
    /// Updates its address, written `u`; the configuration does not change.
    #[default]
    Update,
}

/// One change of one id (etcd's `raftpb.ConfChangeSingle`). A change of the id 0 has no effect; the default is one.
#[derive(Clone, Copy, Debug, Default, PartialEq, Eq)]
pub struct Change {
    /// What becomes of the id.
    pub kind: Kind,
    /// The id that changes. etcd replaces it by 0 when it decides not to apply a change that was proposed.
    pub id: u64,
}

/// A list of changes that are made together, in order: `v4 r1` replaces 1 by 4.
#[derive(Debug, Drop)]
pub struct Changes {
    list: Vec<Change>,
}

impl Model for Changes {
    ghost use Rattle.std.specs.Prelude.{List};
    ghost use Rattle.conf_change.specs.declared.change.Change.{Change};

    ghost Value = { List Change };

    ghost view = { λ inner. inner.list.items };
}

impl From<Vec<Change>> for Changes {
    ghost from_gives = { λ list changes. changes ≡ list.items };

    fn from(list: Vec<Change>) -> Changes {
        Changes { list }
    }
}

impl From<Changes> for Vec<Change> {
    ghost from_gives = { λ changes list. list.items ≡ changes };

    fn from(changes: Changes) -> Vec<Change> {
        let Changes { list } = changes;
        list
    }
}

impl Changes {
    /// The changes in the order in which they are made.
    pub fn as_slice(&self) -> &[Change]
        ensures { result.now ≡ self.now }
    {
        self.list.as_slice()
    }

    /// A copy.
    pub fn try_clone(&self) -> Result<Changes, NoMemory>
        ensures { IfOk result (λ copy. copy ≡ self.now) }
    {
        let list = self.list.clone()?;
        Ok(Changes { list })
    }
}
