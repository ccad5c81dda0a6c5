//! The current configuration of a pair, which the mode `plan` answers.
use crate::origin::Origin;
use conf_change::Config;
use conf_plan::Strategy;
use conf_session::SessionIds;

/// A current configuration: where it is written, and the strategy of the plan from it.
#[derive(Drop)]
pub(crate) struct Current {
    pub(crate) origin: Origin,
    pub(crate) config: Config<SessionIds>,
    pub(crate) strategy: Strategy,
}
