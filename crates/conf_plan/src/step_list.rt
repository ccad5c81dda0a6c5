//! Plans: paths of at most four steps.
ghost use Rattle.std.specs.Prelude.{◌≡◌, ◌≤◌, length};

use crate::path::Path;
use conf_change::Step;
use std::marker::Model;
use std::ops::Deref;

/// A [`Path`] of at most four steps. No two configurations with voters are further apart (own).
#[derive(Debug, Drop)]
pub struct Plan {
    path: Path,
}

impl Model for Plan {
    ghost use Rattle.std.specs.Prelude.{◌≤◌, List, length};
    ghost use Rattle.conf_change.specs.declared.step.Step.{Step};

    ghost Value = { List Step };

    ghost view = { λ plan. plan.path };

    ghost invariant = { λ plan. length plan.path ≤ 4 };
}

impl Deref for Plan {
    type Target = Path;

    ghost deref_gives = { λ plan path. (path ≡ plan) × (length path ≤ 4) };

    fn deref(&self) -> &Path {
        &self.path
    }
}

impl Plan {
    // The plan of this path.
    pub(crate) fn of_path(path: Path) -> Plan
        requires { length path ≤ 4 }
        ensures { result ≡ path }
    {
        Plan { path }
    }
}
