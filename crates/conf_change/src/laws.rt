//! Laws of this crate's definitions: what is true of all configurations, lists of changes and texts. Each is the
//! contract of a function that does nothing.
ghost use Rattle.std.specs.Prelude.{◌≡◌, ◌↔◌, ℕ, List, Ok, Err, Some, true};
ghost use Rattle.quorum_sets.specs.Ids.{has};
ghost use Rattle.quorum_sets.specs.Voters.{AreNeighbours};
ghost use Rattle.conf_change.specs.Acknowledgement.{ack_answer, changer_with_progress};
ghost use Rattle.conf_change.specs.declared.change.Change.{Change};
ghost use Rattle.conf_change.specs.Change.{last_effective, is_incoming_after, is_learner_after, is_next_after, result_of};
ghost use Rattle.conf_change.specs.Configuration.{ValidByMember, is_valid, voters_of};
ghost use Rattle.ascii_text.specs.Tokens.{tokens_in};
ghost use Rattle.conf_change.specs.ChangeList.{Denotes, BadToken, IsFirstBad, changes_in};
ghost use Rattle.conf_change.specs.declared.floor.Floor.{Floor};
ghost use Rattle.conf_change.specs.declared.progress.Progress.{Progress};
ghost use Rattle.conf_change.specs.declared.refused.Refused.{Refused};
ghost use Rattle.conf_change.specs.declared.step.Step.{Step};
ghost use Rattle.conf_change.specs.Outcome.{outcome};
ghost use Rattle.conf_change.specs.Changer.{ChangerState, Accepts, IsSound, begun_with, changer_after, moved_to, new_changer};
ghost use Rattle.conf_change.specs.Configuration.{Configuration, has_voter, is_restorable};
ghost use Rattle.conf_change.specs.ConfState.{ConfStateLists, Describes, lists_of, restored};
ghost use Rattle.conf_change.specs.Violation.{valid_of};
ghost use Rattle.conf_change.specs.ConfStateLine.{DenotesConfState, conf_state_in, conf_state_text};
ghost use Rattle.conf_change.specs.PrintedConfig.{DenotesConfig, config_in};
ghost use Rattle.conf_change.specs.Text.{config_text};
ghost use Rattle.conf_change.specs.U64Lists.{HasU64Lists};

/// A text denotes at most one list of changes, which is the value of `changes_in`; if it denotes none, `changes_in`
/// gives its first bad token.
pub fn one_list_per_text()
    ensures ok { (text : List ℕ) (changes : List Change) → (Denotes text changes)
        ↔ (changes_in text ≡ Ok changes) }
    ensures err { (text : List ℕ) (bad : BadToken) → (IsFirstBad (tokens_in text) bad)
        ↔ (changes_in text ≡ Err bad) }
    ensures one { (text : List ℕ) (a b : List Change) → Denotes text a → Denotes text b → a ≡ b }
{}

/// A ConfState line denotes at most one ConfState, which is the value of `conf_state_in`. The line that is printed of a
/// configuration denotes its ConfState.
pub fn one_conf_state_per_text()
    ensures some { (text : List ℕ) (saved : ConfStateLists) → (DenotesConfState text saved)
        ↔ (conf_state_in text ≡ Some saved) }
    ensures one { (text : List ℕ) (a b : ConfStateLists) → DenotesConfState text a
        → DenotesConfState text b → a ≡ b }
    ensures printed { (c : Configuration) → HasU64Lists c
        → DenotesConfState (conf_state_text (lists_of c)) (lists_of c) }
{}

/// A printed configuration denotes at most one ConfState, which is the value of `config_in`. The text that is printed of
/// a configuration denotes its ConfState, with the lists in ascending order, and so describes no other configuration.
pub fn one_config_per_text()
    ensures some { (text : List ℕ) (saved : ConfStateLists) → (DenotesConfig text saved)
        ↔ (config_in text ≡ Some saved) }
    ensures one { (text : List ℕ) (a b : ConfStateLists) → DenotesConfig text a
        → DenotesConfig text b → a ≡ b }
    ensures printed { (c : Configuration) → HasU64Lists c
        → DenotesConfig (config_text c) (lists_of c) }
    ensures no_other { (c d : Configuration) (saved : ConfStateLists) → HasU64Lists c
        → DenotesConfig (config_text c) saved → Describes saved d → d ≡ c }
{}

/// A ConfState has a valid configuration exactly if it describes that configuration, and that is valid; and it has no
/// other.
pub fn valid_is_described()
    ensures { (saved : ConfStateLists) (c : Configuration)
        → ((valid_of saved ≡ Ok c) ↔ (Describes saved c × (is_valid c ≡ true))) }
{}

/// A ConfState is restored to the configuration that it describes, if that one can be restored, and to no other.
pub fn restored_is_described()
    ensures { (saved : ConfStateLists) (c : Configuration)
        → ((restored saved ≡ Some c) ↔ (Describes saved c × (is_restorable c ≡ true))) }
{}

/// The ConfState of a configuration, with its lists in ascending order, describes that configuration, and a ConfState
/// describes at most one. So saving and restoring a configuration does not change it.
pub fn conf_state_describes()
    ensures own { (c : Configuration) → Describes (lists_of c) c }
    ensures one { (saved : ConfStateLists) (c d : Configuration) → Describes saved c
        → Describes saved d → c ≡ d }
{}

/// A step leads from a changer to at most one changer, which is the value of `changer_after`; if the step is refused,
/// `changer_after` gives the refusal.
pub fn one_changer_after_a_step()
    ensures ok { (before after : ChangerState) (step : Step) → (Accepts before step after)
        ↔ (changer_after before step ≡ Ok after) }
    ensures err { (before : ChangerState) (step : Step) (why : Refused)
        → (outcome before.tracker.config step ≡ Err why)
        ↔ (changer_after before step ≡ Err why) }
{}

/// An accepted step leads from a sound tracker to a sound one, and from a configuration that can be restored to one
/// that can be restored too and has an incoming voter. A tracker that begins with a configuration that can be restored
/// is sound, and so is a new one, whose configuration is empty. An acknowledgement keeps a tracker sound. So every
/// tracker that is ever reached is sound.
pub fn trackers_stay_sound()
    ensures step { (before : ChangerState) (step : Step) (after : Configuration)
        → IsSound before.tracker
        → outcome before.tracker.config step ≡ Ok after
        → IsSound (moved_to before step after).tracker }
    ensures restorable { (before after : Configuration) (step : Step) → is_restorable before ≡ true
        → outcome before step ≡ Ok after → is_restorable after ≡ true }
    ensures voter { (before after : Configuration) (step : Step) → is_restorable before ≡ true
        → outcome before step ≡ Ok after → has_voter after ≡ true }
    ensures begun { (floor : Floor) (last_index : ℕ) (c : Configuration) → is_restorable c ≡ true
        → IsSound (begun_with floor last_index c).tracker }
    ensures empty { (floor : Floor) (last_index : ℕ)
        → IsSound (new_changer floor last_index).tracker }
    ensures acknowledged { (before : ChangerState) (id index : ℕ) (p : Progress)
        → IsSound before.tracker
        → ack_answer before.tracker id index ≡ Ok p
        → IsSound (changer_with_progress before id p).tracker }
{}

/// A configuration is valid exactly if the invariants, which are stated for sets, are true id by id.
pub fn valid_by_member()
    ensures { (c : Configuration) → (is_valid c ≡ true) ↔ ValidByMember c }
{}

/// In the result of a list of changes, the last effective change of an id decides its roles. After `v4 l4 v4 u4`, 4 is
/// a voter, since an update has no effect.
pub fn result_by_member()
    ensures incoming { (c : Configuration) (changes : List Change) (id : ℕ)
        → has (result_of c changes).incoming id
        ≡ is_incoming_after (last_effective changes id) (has c.incoming id) }
    ensures learners { (c : Configuration) (changes : List Change) (id : ℕ)
        → has (result_of c changes).learners id
        ≡ is_learner_after (last_effective changes id) (has c.outgoing id) (has c.learners id) }
    ensures learners_next { (c : Configuration) (changes : List Change) (id : ℕ)
        → has (result_of c changes).learners_next id
        ≡ is_next_after (last_effective changes id) (has c.outgoing id) (has c.learners_next id) }
{}

/// The voters before and after an accepted step are neighbours, so each quorum before it shares a member with each
/// quorum after it (Ongaro's dissertation, 4.1 and 4.3).
pub fn steps_lead_to_neighbours()
    ensures { (before after : Configuration) (step : Step) → outcome before step ≡ Ok after
        → AreNeighbours (voters_of before) (voters_of after) }
{}
