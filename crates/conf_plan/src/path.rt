//! Paths: lists of steps of any length.
ghost use Rattle.std.specs.Prelude.{◌≡◌, length, option_copied, slice_get, IfOk};
ghost use Rattle.std.specs.List.{All};
ghost use Rattle.conf_plan.specs.OneChangeEach as each;
ghost use Rattle.conf_plan.specs.PlanSteps.{HasU64Ids};

use crate::one_change_each::add_one_change_each;
use conf_change::Step;
use quorum_sets::NoMemory;
use std::alloc::Global;
use std::marker::Model;

/// Steps that follow one another, as [`plan_by`](crate::plan_by) makes them. Unlike a [`Plan`](crate::Plan), a path may
/// have more than four: if one member changes at a time, each new voter takes up to two.
#[derive(Debug, Drop)]
pub struct Path {
    steps: Vec<Step>,
}

impl Model for Path {
    ghost use Rattle.std.specs.Prelude.{List};
    ghost use Rattle.std.specs.List.{All};
    ghost use Rattle.conf_change.specs.declared.step.Step.{Step};
    ghost use Rattle.conf_plan.specs.PlanSteps.{HasU64Ids};

    ghost Value = { List Step };

    ghost view = { λ path. path.steps.items };

    ghost invariant = { λ path. All HasU64Ids path.steps.items };
}

impl Path {
    // The path of these steps.
    pub(crate) fn of_steps(steps: Vec<Step>) -> Path
        requires { All HasU64Ids steps.items }
        ensures { result ≡ steps.items }
    {
        Path { steps }
    }

    /// The steps in the order in which they are taken.
    pub fn as_slice(&self) -> &[Step]
        ensures steps { result.now ≡ self.now }
        // The ids have 64 bits, so printed steps can be read back.
        ensures u64_ids { All HasU64Ids self.now }
    {
        self.steps.as_slice()
    }

    /// How many steps it has.
    pub fn len(&self) -> usize
        ensures { result ≡ length self.now }
    {
        self.steps.len()
    }

    /// The step at an index, counted from 0.
    pub fn step(&self, index: usize) -> Option<&Step>
        ensures { option_copied result ≡ slice_get self.now index }
    {
        self.steps.get(index)
    }
    /// The steps of this path, each simple one as steps of one change: `simple l4 l5` becomes `simple l4` and
    /// `simple l5`. etcd's raft takes a proposal of several changes with the transition Auto through a joint
    /// configuration, so a simple step is proposed change by change (own).
    pub fn one_change_each(&self, alloc: Global) -> Result<Path, NoMemory>
        ensures { IfOk result (λ path. path ≡ each.one_change_each self.now) }
    {
        let mut steps = Vec::new(alloc);
        add_one_change_each(alloc, &mut steps, self.as_slice())?;
        Ok(Path::of_steps(steps))
    }
}
