//! Laws of paths that are applied, and of configurations and plans in numbers: what is true of all texts and arrays.
//! Each is the contract of a function that does nothing.
ghost use Rattle.std.specs.Prelude.{◌≡◌, ◌↔◌, ◌≤◌, ℕ, List, ◌++◌, length, true, Ok, Some};
ghost use Rattle.std.specs.List.{All};
ghost use Rattle.quorum_sets.specs.Ids.{Ids};
ghost use Rattle.conf_change.specs.Configuration.{Configuration, has_voter, is_restorable, is_valid};
ghost use Rattle.conf_change.specs.ConfState.{restored};
ghost use Rattle.conf_change.specs.declared.step.Step.{Step};
ghost use Rattle.conf_plan.specs.OnTheWay.{catching_up};
ghost use Rattle.conf_plan.specs.OneChangeEach.{one_change_each};
ghost use Rattle.conf_plan.specs.PlanCode.{path_in};
ghost use Rattle.conf_plan.specs.PlanSteps.{HasU64Ids};
ghost use Rattle.conf_plan.specs.PlanText.{plan_text};
ghost use Rattle.conf_plan.specs.Run.{Gives, IsRun, IsValidWithVoter};
ghost use Rattle.plan_output.specs.Stages.{StageState, first_stage};
ghost use Rattle.confscript_c.specs.Applied.{apply_result};
ghost use Rattle.confscript_c.specs.Numbers.{configuration_of, has_form, lists_in, numbers_of, restore_result, valid_configuration_of};
ghost use Rattle.confscript_c.specs.Planning.{plan_result};
ghost use Rattle.confscript_c.specs.PlanTexts.{current_or_answer, target_or_answer};
ghost use Rattle.confscript_c.specs.Room.{restore_room, step_room};
ghost use Rattle.confscript_c.specs.Stages.{stages_result, AreOfOnePath, AreStepped, IsOneProposal, IsStepped};
ghost use Rattle.confscript_c.specs.Stepped.{step_result, StepsTo};
ghost use Rattle.confscript_c.specs.declared.stepping.NumberedChange.{NumberedChange};

/// Lines may be applied in parts: the line that `confscript_apply` writes for the first ones goes in with the rest, and
/// gives what all of them give at once.
pub fn lines_are_applied_in_parts()
    ensures lines { (state line first rest all : List ℕ) (before after : List Step)
        → path_in first ≡ Ok before → path_in rest ≡ Ok after → path_in all ≡ Ok (before ++ after)
        → apply_result state first ≡ Ok line → (out : List ℕ) → (apply_result state all ≡ Ok out)
        ↔ (apply_result line rest ≡ Ok out) }
    ensures printed { (state line : List ℕ) (before after : List Step) → All HasU64Ids before
        → All HasU64Ids after → apply_result state (plan_text before) ≡ Ok line
        → (out : List ℕ) → (apply_result state (plan_text (before ++ after)) ≡ Ok out)
        ↔ (apply_result line (plan_text after) ≡ Ok out) }
{
    conf_change::laws::restored_is_described();
    conf_change::laws::conf_state_describes();
    conf_change::laws::trackers_stay_sound();
    conf_plan::laws::ids_are_named();
    conf_plan::laws::one_path_per_text();
}

/// An array has a configuration exactly if it has the form and etcd's `Restore` restores its saved configuration to it.
/// What a call writes, the next takes as it is: the array of a configuration that can be restored has that
/// configuration. The array that `confscript_restore` writes has the configuration of the array that it was given, and
/// the one that `confscript_step` writes has the configuration to which the step leads.
pub fn written_arrays_are_taken()
    ensures restored { (numbers : List ℕ) (c : Configuration) → (configuration_of numbers ≡ Ok c)
        ↔ ((has_form numbers ≡ true) × (restored (lists_in numbers) ≡ Some c)) }
    ensures again { (c : Configuration) (catching_up : Ids) → is_restorable c ≡ true
        → configuration_of (numbers_of c catching_up) ≡ Ok c }
    ensures after_restore { (numbers out : List ℕ) → restore_result numbers ≡ Ok out
        → (c : Configuration) × (configuration_of numbers ≡ Ok c) × (configuration_of out ≡ Ok c) }
    ensures after_step { (numbers out : List ℕ) (step : ℕ) (changes : List NumberedChange)
        → step_result numbers step changes ≡ Ok out → StepsTo numbers step changes out }
{
    conf_change::laws::valid_is_described();
    conf_change::laws::restored_is_described();
    conf_change::laws::conf_state_describes();
    conf_change::laws::trackers_stay_sound();
}

/// If two arrays have the configurations that two texts denote, the stages that `confscript_stages` writes are those of
/// the JSON lines that `confscript_plan` writes, for the same strategy and the same ids that are down: both are of the
/// same steps. If the one call is refused, so is the other, with the same answer.
pub fn stages_are_those_of_the_plan()
    ensures { (now target configuration goal down : List ℕ) (strategy : ℕ)
        (before after : Configuration) → current_or_answer now ≡ Ok before
        → target_or_answer before target ≡ Ok after
        → valid_configuration_of configuration ≡ Ok before → valid_configuration_of goal ≡ Ok after
        → AreOfOnePath down before (plan_result strategy 2 down now target)
        (stages_result configuration goal strategy down) }
{}

/// A stage is one call of `confscript_step`: given the array of the stage before it, the transition and the changes that
/// are proposed, that call writes the configuration of the stage, with the members that catch up. The first call is
/// given the configuration with which the plan begins. The steps of a path are such that one proposal makes each, once a
/// simple step of several changes is as many steps of one. So the stages of a run are one call each.
pub fn stages_are_steps()
    ensures one { (before after : StageState) (step : Step) → IsOneProposal step
        → is_valid before.config ≡ true → has_voter before.config ≡ true
        → Gives before.config step after.config
        → after.catching_up ≡ catching_up before.config step after.config
        → IsStepped before step after }
    ensures each { (steps : List Step) → All IsOneProposal (one_change_each steps) }
    ensures run { (now target : Configuration) (steps : List Step) → IsValidWithVoter now
        → IsRun now (one_change_each steps) target
        → AreStepped (first_stage now) (one_change_each steps) }
{
    written_arrays_are_taken();
    raft_json::laws::proposed_step_leads_alike();
    conf_plan::laws::run_stays_valid();
}

/// What `confscript_restore` and `confscript_step` write fits into an array of as many numbers as the header's macros
/// CONFSCRIPT_RESTORE_ROOM and CONFSCRIPT_STEP_ROOM compute of the lengths that are passed.
pub fn results_have_room()
    ensures restored { (numbers out : List ℕ) → restore_result numbers ≡ Ok out
        → length out ≤ restore_room (length numbers) }
    ensures stepped { (numbers out : List ℕ) (step : ℕ) (changes : List NumberedChange)
        → step_result numbers step changes ≡ Ok out
        → length out ≤ step_room (length numbers) (length changes) }
{
    conf_change::laws::restored_is_described();
    written_arrays_are_taken();
}
