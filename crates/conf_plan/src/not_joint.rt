//! Configurations that are not joint. A path leaves a joint configuration first, so the rest of it starts from such a
//! one.
use quorum_sets::MemberSet;
use std::marker::Model;

// The voters and the learners of a configuration that is not joint.
#[derive(Drop)]
pub(crate) struct NotJoint<'a, S: MemberSet> {
    pub(crate) incoming: &'a S,
    pub(crate) learners: &'a S,
}

impl<'a, S: MemberSet> Model for NotJoint<'a, S> {
    ghost use Rattle.conf_change.specs.Configuration.{Configuration};
    ghost use Rattle.conf_change.specs.ConfigurationCode.{configuration_code};
    ghost use Rattle.conf_plan.specs.Planned.{single_with};

    ghost Value = { Configuration };

    ghost coded = { configuration_code };

    ghost view = { λ c. single_with (S.ids c.incoming.now) (S.ids c.learners.now) };
}
