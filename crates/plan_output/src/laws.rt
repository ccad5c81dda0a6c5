//! Laws of what is printed of a path. Each is the contract of a function that does nothing.
ghost use Rattle.std.specs.Prelude.{◌≡◌, ℕ, ◌+◌, ◌<◌, ◌^◌, ◌++◌, true, false, List, [], Option, codes, decimal, slice_index};
ghost use Rattle.std.specs.List.{list_any};
ghost use Rattle.quorum_sets.specs.Ids.{Ids, ascending, size};
ghost use Rattle.conf_change.specs.Configuration.{Configuration};
ghost use Rattle.conf_change.specs.declared.step.Step.{Step};
ghost use Rattle.conf_plan.specs.declared.strategy.Strategy.{Strategy};
ghost use Rattle.conf_plan.specs.PathBy.{has_path, path_by};
ghost use Rattle.conf_plan.specs.PlanText.{line_text};
ghost use Rattle.conf_plan.specs.Run.{IsRun, IsValidWithVoter};
ghost use Rattle.plan_output.specs.CarriedOut.{LinesLead};
ghost use Rattle.plan_output.specs.Json.{path_json};
ghost use Rattle.plan_output.specs.Names.{denoted_text, is_long, name_by, named_line, numbered_of};
ghost use Rattle.plan_output.specs.Stages.{AreOnTheWay, stages};

use conf_change::laws::{conf_state_describes, restored_is_described};
use conf_plan::laws::{one_change_each_leads, paths_keep_promises, run_stays_valid};

/// The stages of a run, of which a table has a row each, are the configurations on its way: each step is accepted in the
/// configuration of one stage and gives that of the next. The last one is the target. JSON has an object for each stage
/// after the first one of the run of one change each.
pub fn stages_are_on_the_way()
    ensures { (now target : Configuration) (steps : List Step) → IsRun now steps target
        → AreOnTheWay (stages now steps) steps target }
{}

/// The JSON lines of a path by a strategy lead etcd's raft to the target. Each line is a value here; the text of the value
/// is what `serde_json` writes of it, and reads back. What a line proposes is carried out: the step that etcd takes leads
/// to the configuration that the line names, and etcd ends there, or with auto-leave in the one that leaving it gives. So
/// only a line that names a configuration with auto-leave leads through one. The last line names the target. `made` are
/// the ids that are down as the path is made, and `down` those of which the lines report, if there are any.
pub fn json_lines_lead_to_the_target()
    ensures { (strategy : Strategy) (made : Ids) (down : Option Ids) (plan : ℕ)
        (now target : Configuration)
        → IsValidWithVoter now → IsValidWithVoter target
        → has_path strategy now target ≡ true
        → LinesLead now now (path_json plan now (path_by strategy made now target) down) target }
{
    conf_state_describes();
    restored_is_described();
    one_change_each_leads();
    paths_keep_promises();
    run_stays_valid();
}

/// In a table with an id of more than six digits, the names of the ids are `#1`, `#2`, .. in ascending order. In each
/// table, no two ids have the same name.
pub fn names_denote_one_id()
    ensures ascending { (ids : Ids) (index : ℕ) → list_any is_long (ascending ids) ≡ true
        → index < size ids
        → name_by (numbered_of (ascending ids)) (slice_index (ascending ids) index) ≡ codes "#"
        ++ decimal (index + 1) }
    ensures one { (ids : Ids) (a b : ℕ) → size ids < 2 ^ 64 → a < 2 ^ 64 → b < 2 ^ 64
        → name_by (numbered_of (ascending ids)) a ≡ name_by (numbered_of (ascending ids)) b → a
        ≡ b }
{}

/// In a table without an id of more than six digits, the names of ids are their digits, a step is the line that
/// `add_steps` appends, and nothing follows the rows.
pub fn short_ids_are_their_digits()
    ensures names { (ids : List ℕ) (id : ℕ) → list_any is_long ids ≡ false
        → name_by (numbered_of ids) id ≡ decimal id }
    ensures lines { (ids : List ℕ) (step : Step) → list_any is_long ids ≡ false
        → named_line (name_by (numbered_of ids)) step ≡ line_text step }
    ensures nothing { (ids : List ℕ) → list_any is_long ids ≡ false → denoted_text (numbered_of ids)
        ≡ [] }
{}
