//! The options of the mode `plan`.
ghost use Rattle.std.specs.Prelude.{◌≡◌, None};
ghost use Rattle.plan_output.specs.declared.output.Output.TheVariants.{Steps};
ghost use Rattle.conf_tool.specs.declared.plan_options.PlanOutput.TheVariants.{Text};

use conf_plan::Strategy;
use conf_session::SessionIds;
use plan_output::Output;

/// The form in which a plan is printed.
#[derive(Clone, Copy, Debug, PartialEq, Eq)]
pub enum PlanOutput {
    /// A script that restores the current configuration and takes the steps from there.
    Script,
    /// The steps, a table, or JSON lines.
    Text(Output),
}

/// The strategy of a plan, if one is given, the form in which it is printed, and the ids that are down, if any are
/// given. Without a strategy it is decided for each pair, by how its current configuration is written.
#[derive(Drop)]
pub struct PlanOptions {
    pub strategy: Option<Strategy>,
    pub output: PlanOutput,
    pub down: Option<SessionIds>,
}

impl Default for PlanOptions {
    ghost is_default = { λ options. (options.strategy ≡ None) × (options.output ≡ Text Steps)
        × (options.down ≡ None) };

    /// No strategy is given, the plan is printed as steps, and no id is down.
    fn default() -> PlanOptions {
        PlanOptions {
            strategy: None,
            output: PlanOutput::Text(Output::Steps),
            down: None,
        }
    }
}
