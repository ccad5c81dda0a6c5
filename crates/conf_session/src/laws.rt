//! Laws of this crate's definitions, each the contract of a function that does nothing. A caller calls such a function
//! to use its law in a proof.
ghost use Rattle.std.specs.Prelude.{◌≡◌, ◌-◌, ◌≤◌, ℕ, List, Some, Ok, true, slice_get};
ghost use Rattle.dd_file.specs.DirectiveText.{DirectiveText};
ghost use Rattle.dd_file.specs.DirectiveLine.{has_keys};
ghost use Rattle.conf_change.specs.Configuration.{Configuration, has_voter};
ghost use Rattle.conf_change.specs.declared.floor.Floor.{Floor};
ghost use Rattle.conf_change.specs.declared.step.Step.{Step};
ghost use Rattle.conf_plan.specs.Planned.{planned};
ghost use Rattle.conf_session.specs.SessionState.{SessionState, IsSession, new_session, current};
ghost use Rattle.conf_session.specs.Undo.{IsEarlier, LeadsBack, undo_plan_of, undone_changer};
ghost use Rattle.conf_session.specs.Commands.{answer, after_answers};
ghost use Rattle.conf_session.specs.ReplyLines.{IsValidOutput};

use conf_change::laws::{
    one_changer_after_a_step, one_list_per_text, restored_is_described, trackers_stay_sound,
};
use conf_plan::laws::{one_changer_after_steps, undo_of_run};

/// The reply to a directive is a valid output: whole lines, one at least, none of which is blank, is four dashes or
/// ends in a carriage return.
pub fn actual_output_is_valid()
    ensures { (session : SessionState) (directive : DirectiveText)
        → has_keys directive.arguments ≡ true
        → IsValidOutput (answer session directive).actual }
{
    one_list_per_text();
}

/// The kept configurations of a session are those before its last accepted changes: `count` accepted steps lead from
/// the one at index `count - 1` to the current one, which has a voter.
pub fn kept_lead_to_now()
    ensures { (session : SessionState) (count : ℕ) (older : Configuration)
        → IsSession session → 1 ≤ count
        → slice_get session.kept (count - 1) ≡ Some older → IsEarlier session count older }
{
    trackers_stay_sound();
}

/// What holds of every session (`IsSession`) still holds after each answer, whatever the directive is: the members fit
/// the configuration, accepted steps lead from each kept configuration to the next newer one, and ids are numbers of 64
/// bits.
pub fn answer_keeps_session()
    ensures { (session : SessionState) (directive : DirectiveText) → IsSession session
        → IsSession (answer session directive).session }
{
    trackers_stay_sound();
    one_changer_after_a_step();
    restored_is_described();
    kept_lead_to_now();
    undo_of_run();
    one_changer_after_steps();
}

/// `IsSession` holds after any directives in turn, so it holds of every session that began as a new one.
pub fn answers_keep_session()
    ensures kept { (session : SessionState) (directives : List DirectiveText) → IsSession session
        → IsSession (after_answers session directives) }
    ensures from_new { (history : ℕ) (floor : Floor) (directives : List DirectiveText)
        → IsSession (after_answers (new_session history floor) directives) }
{
    answer_keeps_session();
    trackers_stay_sound();
}

/// The plan that undoes the last changes of a session leads back to the configuration before them. Its ids are numbers
/// of 64 bits.
pub fn undo_plan_leads_back()
    ensures { (session : SessionState) (count : ℕ) (steps : List Step)
        → IsSession session → 1 ≤ count
        → undo_plan_of session count ≡ Ok steps → LeadsBack session count steps }
{
    kept_lead_to_now();
    undo_of_run();
}

/// Whatever changes were accepted, the plan that undoes the last ones restores the voters, learners, next learners and
/// the flag as they were before them, if there was a voter then.
pub fn undo_brings_back()
    ensures { (session : SessionState) (count : ℕ) (older : Configuration)
        → IsSession session → 1 ≤ count
        → slice_get session.kept (count - 1) ≡ Some older → has_voter older ≡ true
        → (undone_changer session (planned (current session) older)).tracker.config ≡ older }
{
    kept_lead_to_now();
    undo_of_run();
    one_changer_after_steps();
}
