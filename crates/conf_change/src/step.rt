//! Steps from one configuration to another. Each is safe by itself: the quorums before and after it overlap.
ghost use Rattle.std.specs.Prelude.{◌≡◌};
ghost use Rattle.conf_change.specs.Step.{changes_of};
ghost use Rattle.conf_change.specs.Transition.{step_of};

use crate::change::{Change, Changes};

/// A step from one configuration to the next: a simple change, entering a joint configuration (with or without
/// auto-leave), or leaving it (Ongaro's dissertation, sections 4.1 and 4.3).
#[derive(Debug, Drop)]
pub enum Step {
    /// At most one voter changes, and any number of learners, as in `v4 l5 l6`.
    Simple(Changes),
    /// Enters a joint configuration, with or without auto-leave, by these changes. They may alter any number of voters.
    EnterJoint(bool, Changes),
    /// Leaves a joint configuration: from then on the incoming voters decide alone.
    LeaveJoint,
}

/// The kind of a step: a step without its changes.
#[derive(Clone, Copy, Debug, PartialEq, Eq)]
pub enum StepKind {
    /// A simple one.
    Simple,
    /// Entering a joint configuration, with or without auto-leave.
    Enter(bool),
    /// Leaving it.
    Leave,
}

impl Step {
    /// The changes in the order in which they are made; leaving a joint configuration has none.
    pub fn changes(&self) -> &[Change]
        ensures { result.now ≡ changes_of self.now }
    {
        match self {
            Step::Simple(changes) | Step::EnterJoint(_, changes) => changes.as_slice(),
            Step::LeaveJoint => &[],
        }
    }

    /// The kind of the step.
    pub fn kind(&self) -> StepKind
        ensures { step_of result (changes_of self.now) ≡ self.now }
    {
        match self {
            Step::Simple(_) => StepKind::Simple,
            Step::EnterJoint(auto_leave, _) => StepKind::Enter(*auto_leave),
            Step::LeaveJoint => StepKind::Leave,
        }
    }
}
