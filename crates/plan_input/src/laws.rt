//! Laws of this crate's definitions: what is true of all texts. Each is the contract of a function that does nothing.
ghost use Rattle.std.specs.Prelude.{◌≡◌, ◌≢◌, ℕ, List, [], Ok, Err, Some, IsUtf8, true};
ghost use Rattle.conf_change.specs.ChangeList.{Denotes};
ghost use Rattle.conf_change.specs.Configuration.{Configuration, is_valid};
ghost use Rattle.conf_change.specs.ConfState.{ConfStateLists, lists_of};
ghost use Rattle.conf_change.specs.ConfStateLine.{conf_state_text};
ghost use Rattle.conf_change.specs.Text.{config_text};
ghost use Rattle.conf_change.specs.U64Lists.{HasU64Lists};
ghost use Rattle.conf_change.specs.Violation.{valid_of};
ghost use Rattle.conf_change.specs.declared.change.Change.{Change};
ghost use Rattle.serde_json.specs.Read.{read};
ghost use Rattle.raft_json.specs.ConfStateJson.{conf_state_json};
ghost use Rattle.plan_input.specs.Changed.{after_changes};
ghost use Rattle.plan_input.specs.Denoted.{DenotesIn};
ghost use Rattle.plan_input.specs.Form.{form_of};
ghost use Rattle.plan_input.specs.Input.{as_text, current_in, target_in};
ghost use Rattle.plan_input.specs.Refusal.{IsFirstRefusal, NoneRefused};
ghost use Rattle.plan_input.specs.declared.form.Form.{Form};
ghost use Rattle.plan_input.specs.declared.form.Form.TheVariants.{Other};
ghost use Rattle.plan_input.specs.declared.text_fault.TextFault.{TextFault};
ghost use Rattle.plan_input.specs.declared.text_fault.TextFault.TheVariants.{Empty};

use conf_change::laws::{
    conf_state_describes, one_conf_state_per_text, one_config_per_text, one_list_per_text,
    valid_is_described,
};
use raft_json::laws::conf_state_json_reads_back;

/// A text denotes a saved configuration in one form alone, which is the form that its beginning shows, and it denotes
/// at most one there. A text that denotes changes denotes no configuration.
pub fn one_form_per_text()
    ensures form { (form : Form) (text : List ℕ) (saved : ConfStateLists)
        → DenotesIn form text saved
        → form_of text ≡ form }
    ensures changes { (text : List ℕ) (changes : List Change) → Denotes text changes → form_of text
        ≡ Other }
    ensures one { (form : Form) (text : List ℕ) (a b : ConfStateLists) → DenotesIn form text a
        → DenotesIn form text b
        → a ≡ b }
{
    one_conf_state_per_text();
    one_config_per_text();
}

/// A text that denotes a saved configuration in some form is read as that configuration, also as the target, so it is
/// all one in which form it is written. A text that denotes changes is read as their target if none of them is refused,
/// and otherwise is refused for the first one; a blank text is refused. What is printed of a valid configuration, its
/// ConfState line and its JSON are all read as the configuration.
pub fn each_form_is_read()
    ensures current { (form : Form) (text : List ℕ) (saved : ConfStateLists)
        → DenotesIn form text saved
        → current_in text ≡ as_text text (valid_of saved) }
    ensures target { (form : Form) (now : Configuration) (text : List ℕ) (saved : ConfStateLists)
        → DenotesIn form text saved → target_in now text ≡ as_text text (valid_of saved) }
    ensures changes { (now : Configuration) (text : List ℕ) (changes : List Change)
        → Denotes text changes
        → changes ≢ [] → NoneRefused now changes → target_in now text
        ≡ Ok (after_changes now changes) }
    ensures refused { (now : Configuration) (text : List ℕ) (changes : List Change)
        (why : TextFault)
        → Denotes text changes
        → IsFirstRefusal now changes why → target_in now text ≡ Err why }
    ensures blank { (now : Configuration) (text : List ℕ) → Denotes text [] → target_in now text
        ≡ Err Empty }
    ensures printed { (c : Configuration) → is_valid c ≡ true → HasU64Lists c
        → current_in (config_text c) ≡ Ok c }
    ensures json { (c : Configuration) (text : List ℕ) → is_valid c ≡ true → IsUtf8 text
        → read text ≡ Some (conf_state_json (lists_of c)) → current_in text ≡ Ok c }
    ensures line { (c : Configuration) → is_valid c ≡ true → HasU64Lists c
        → current_in (conf_state_text (lists_of c)) ≡ Ok c }
{
    one_list_per_text();
    one_conf_state_per_text();
    one_config_per_text();
    valid_is_described();
    conf_state_describes();
    conf_state_json_reads_back();
}
