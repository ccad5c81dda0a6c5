//! The options of the modes.
ghost use Rattle.std.specs.Prelude.{◌≡◌, None};
ghost use Rattle.conf_change.specs.declared.floor.Floor.TheVariants.{One};
ghost use Rattle.plan_output.specs.declared.output.Output.TheVariants.{Steps};
ghost use Rattle.conf_tool.specs.declared.plan_options.PlanOutput.TheVariants.{Text};

use crate::plan_options::PlanOptions;
use conf_change::Floor;

/// The options of all modes. A mode reads only its own.
#[derive(Drop)]
pub struct Options {
    /// How many earlier configurations a script's session keeps, from 0 to 1000.
    pub history: usize,
    /// How many changes `undo` undoes, from 1 to 1000.
    pub steps: usize,
    /// The smallest initial next index of a script's new members.
    pub floor: Floor,
    /// What only `plan` reads.
    pub plan: PlanOptions,
}

impl Default for Options {
    ghost is_default = { λ options. (options.history ≡ 100) × (options.steps ≡ 1)
        × (options.floor ≡ One)
        × (options.plan.strategy ≡ None) × (options.plan.output ≡ Text Steps)
        × (options.plan.down ≡ None) };

    /// The defaults: 100 configurations are kept, one change is undone, the smallest initial next index is 1, and a
    /// plan is printed as steps, by the strategy that is decided for its pair.
    fn default() -> Options {
        Options {
            history: 100,
            steps: 1,
            floor: Floor::One,
            plan: PlanOptions::default(),
        }
    }
}
