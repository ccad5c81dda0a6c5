//! Laws of this crate's definitions, each the contract of a function that does nothing.
//!
//! What names no source here is own.
ghost use Rattle.conf_tool.specs.Laws.{RewrittenClean, JoinedClean, UndoScriptLeadsBack, PairsAreAsked, PrintedPlanIsBest, PrintedPathKeepsPromises, PlanScriptLeads};

use conf_change::laws::{
    conf_state_describes, one_config_per_text, one_list_per_text, restored_is_described,
};
use conf_plan::laws::{
    one_change_each_leads, one_plan_per_text, paths_keep_promises, planned_is_best,
};
use conf_session::laws::{actual_output_is_valid, answers_keep_session, undo_plan_leads_back};
use dd_file::laws::{
    directive_is_well_formed, items_are_well_formed, items_have_keys, joined_items, written_script,
};
use plan_output::laws::{json_lines_lead_to_the_target, stages_are_on_the_way};

/// A rewritten script checks clean, if its last item is not a blank of several lines and the rewritten text is within
/// the input limit. If the script has an error, what is written up to it checks clean.
pub fn rewritten_clean()
    ensures { RewrittenClean }
{
    actual_output_is_valid();
    written_script();
    items_are_well_formed();
    items_have_keys();
}

/// A complete script that checks clean, two newlines, and the script that undoes its last changes, together check clean
/// with the same options, if the joined text is within the input limit. That holds too if there is nothing to
/// undo, or no plan.
pub fn joined_clean()
    ensures { JoinedClean }
{
    actual_output_is_valid();
    written_script();
    directive_is_well_formed();
    joined_items();
}

/// A session that ran a script without an error, and then runs the directives that the mode `undo` prints for it, takes
/// the steps of the plan, one for each directive, and returns to the configuration before the last changes.
pub fn undo_script_leads_back()
    ensures { UndoScriptLeadsBack }
{
    actual_output_is_valid();
    written_script();
    directive_is_well_formed();
    answers_keep_session();
    undo_plan_leads_back();
    one_plan_per_text();
    one_list_per_text();
}

/// The strategy of a pair that the mode `plan` reads is the one of the options, or if none is given the one for how its
/// current configuration is written. Each id that is down is a member of one of its configurations.
pub fn pairs_are_asked()
    ensures { PairsAreAsked }
{}

/// For a pair whose strategy is shortest, the mode `plan` prints, in each form of the output, the best plan between two
/// configurations with voters. JSON shows each change of its simple steps as a step.
pub fn printed_plan_is_best()
    ensures { PrintedPlanIsBest }
{
    planned_is_best();
}

/// By the strategy of each pair, and in each form of the output, the mode `plan` prints a path that keeps what the
/// strategy promises, such as that no configuration on the way tolerates fewer failures than the weaker end. The stages
/// that a table shows are the configurations on the way, the last of which is the target. JSON shows the steps change by
/// change: its stages lead to the target, and each has the voters of a configuration on the way.
pub fn printed_path_keeps_promises()
    ensures { PrintedPathKeepsPromises }
{
    paths_keep_promises();
    one_change_each_leads();
    stages_are_on_the_way();
    json_lines_lead_to_the_target();
}

/// The scripts that the mode `plan` prints for any number of pairs, or for that of `--from` and `--to`, are one script,
/// which checks clean if it is within the input limit. For each pair that has a path, a session that runs it restores the
/// first configuration, takes the steps of the path, one for each directive, and is in the second configuration then.
pub fn plan_script_leads()
    ensures { PlanScriptLeads }
{
    actual_output_is_valid();
    written_script();
    directive_is_well_formed();
    restored_is_described();
    conf_state_describes();
    one_plan_per_text();
    one_list_per_text();
    one_config_per_text();
    paths_keep_promises();
}
