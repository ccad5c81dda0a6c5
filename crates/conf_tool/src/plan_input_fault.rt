//! What is wrong with the input of the mode `plan`.
use crate::origin::Origin;
use plan_input::TextFault;
use thiserror::Error;

/// Why an input is not pairs of configurations.
#[derive(Clone, Copy, Debug, PartialEq, Eq, Error)]
pub enum PlanInputFault {
    /// The text that is written there is not a configuration, or not a target.
    #[error("{0}: {1}")]
    BadText(Origin, TextFault),
    /// This id is down, and is not a member of either configuration of the pair on the command line.
    #[error("--down: {0} is not a member")]
    NotAMember(u64),
    /// At the target in the line with this number: this id is down, and is not a member of it or of the current
    /// configuration.
    #[error("line {0}: {1} is down and not a member")]
    NotAMemberAt(usize, u64),
    /// The input has no pair of lines.
    #[error("expected two lines")]
    NotTwoLines,
    /// The input ends after the current configuration that is written there.
    #[error("{0}: its target is missing")]
    NoTarget(Origin),
}
