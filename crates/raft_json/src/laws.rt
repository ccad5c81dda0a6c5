//! Laws of this crate's definitions: what is true of all saved configurations and steps. Each is the contract of a
//! function that does nothing.
ghost use Rattle.std.specs.Prelude.{◌≡◌, ◌<◌, List, [], ◌∷◌, Bool, Ok, Some, length, true};
ghost use Rattle.std.specs.Result.{result_ok};
ghost use Rattle.conf_change.specs.ConfState.{ConfStateLists};
ghost use Rattle.conf_change.specs.Configuration.{Configuration, has_voter, is_valid};
ghost use Rattle.conf_change.specs.Outcome.{outcome};
ghost use Rattle.conf_change.specs.declared.change.Change.{Change};
ghost use Rattle.conf_change.specs.declared.step.Step.{Step};
ghost use Rattle.conf_change.specs.declared.step.Step.TheVariants.{Simple, EnterJoint, LeaveJoint};
ghost use Rattle.conf_change.specs.declared.transition.Transition.{Transition};
ghost use Rattle.raft_json.specs.ConfChangeJson.{conf_change_json};
ghost use Rattle.raft_json.specs.ConfChangeRead.{conf_change_of_json};
ghost use Rattle.raft_json.specs.ConfStateJson.{conf_state_of_json, conf_state_json};
ghost use Rattle.raft_json.specs.Proposal.{proposed_changes, proposed_step, proposal_of, final_outcome, after_auto_leave, carried_out};

/// The JSON of a saved configuration is read back as the same configuration.
pub fn conf_state_json_reads_back()
    ensures { (saved : ConfStateLists) → conf_state_of_json (conf_state_json saved) ≡ Some saved }
{}

/// The JSON of a list of changes with its transition is read back as the same changes and transition, by Go's names,
/// which the definition of reading has on its own.
pub fn conf_change_json_reads_back()
    ensures { (transition : Transition) (changes : List Change)
        → conf_change_of_json (conf_change_json transition changes) ≡ Some (transition, changes) }
{}

/// What etcd takes for the proposal of an accepted step. For leaving and for a simple step of one change, it is the same
/// step; for entering, one with the same outcome, which has an update if the step has no change, and is then left if it
/// has auto-leave. For a simple step of more changes, etcd enters a joint configuration with auto-leave and leaves it
/// automatically, which ends where the step does; for this, the configuration before the step must be valid and have a
/// voter. The proposal for an accepted step other than leaving has a change, so etcd does not take it for leaving.
pub fn proposed_step_leads_alike()
    ensures simple { (before after : Configuration) (changes : List Change) → is_valid before ≡ true
        → has_voter before ≡ true
        → outcome before (Simple changes) ≡ Ok after
        → final_outcome before (proposed_step before (Simple changes)) ≡ Ok after }
    ensures one { (before : Configuration) (change : Change)
        → proposed_step before (Simple (change ∷ [])) ≡ Simple (change ∷ []) }
    ensures enter { (before after : Configuration) (auto_leave : Bool) (changes : List Change)
        → outcome before (EnterJoint auto_leave changes) ≡ Ok after
        → outcome before (proposed_step before (EnterJoint auto_leave changes)) ≡ Ok after }
    ensures leave { (before : Configuration) → proposed_step before LeaveJoint ≡ LeaveJoint }
    ensures simple_named { (before after : Configuration) (changes : List Change)
        → outcome before (Simple changes) ≡ Ok after
        → 0 < length (proposed_changes before (Simple changes)) }
    ensures enter_named { (before after : Configuration) (auto_leave : Bool) (changes : List Change)
        → outcome before (EnterJoint auto_leave changes) ≡ Ok after
        → 0 < length (proposed_changes before (EnterJoint auto_leave changes)) }
{}

/// Etcd's raft carries out the proposal for an accepted step: its leader lets it through, and the step that etcd takes
/// for it ends in the configuration after the step, or with auto-leave in the one that leaving that gives. The
/// configuration before the step must be valid and have a voter.
pub fn etcd_carries_out_the_step()
    ensures { (before after : Configuration) (step : Step) → is_valid before ≡ true
        → has_voter before ≡ true
        → outcome before step ≡ Ok after
        → carried_out before (proposal_of before step) ≡ result_ok (after_auto_leave (Ok after)) }
{}
