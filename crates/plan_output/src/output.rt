//! The outputs of a path: its steps, its table, and its JSON lines.
ghost use Rattle.std.specs.Prelude.{◌≡◌, ◌++◌, Ok, option_copied, IfOk, OnOk, OnErr};
ghost use Rattle.conf_plan.specs.PlanCode.{path_in};
ghost use Rattle.conf_plan.specs.PlanText.{plan_text};
ghost use Rattle.plan_output.specs.Output.{text_as};
ghost use Rattle.plan_output.specs.Stages.{stalls_with};

use crate::json::add_json_lines;
use crate::steps::add_steps;
use crate::table::add_table;
use conf_change::Config;
use conf_plan::Path;
use quorum_sets::{InlineIds, NoMemory};
use std::alloc::Global;

/// What is printed of a path.
#[derive(Clone, Copy, Debug, PartialEq, Eq)]
pub enum Output {
    /// One step a line.
    Steps,
    /// A row for the current configuration and one for each step, with how many failures it tolerates.
    Table,
    /// An object for each change that is proposed, for programs that embed etcd's raft.
    Json,
}

/// Appends a path in an output, and returns whether it stalls with the ids that are down, if any are given. The number
/// is that of the path, as the caller counts; only the JSON lines have it. `conf_plan::read_path` reads the steps as
/// the same path. On `NoMemory` the text is unchanged.
pub fn add_path(
    alloc: Global,
    text: &mut Vec<u8>,
    output: Output,
    number: u64,
    now: &Config<InlineIds>,
    path: &Path,
    down: Option<&InlineIds>,
) -> Result<bool, NoMemory>
    ensures ok { OnOk result (text.new.items ≡ text.old.items
        ++ text_as output number (option_copied down.entry) now.now path.now) }
    ensures reads_back { OnOk result (output ≡ Output.Steps → path_in (plan_text path.now)
        ≡ Ok path.now) }
    ensures stalls { IfOk result (λ stalls. stalls
        ≡ stalls_with (option_copied down.entry) now.now path.now) }
    ensures err { OnErr result (text.new.items ≡ text.old.items) }
{
    match output {
        Output::Steps => add_steps(alloc, text, now, path, down),
        Output::Table => add_table(alloc, text, now, path, down),
        Output::Json => add_json_lines(alloc, text, number, now, path, down),
    }
}
