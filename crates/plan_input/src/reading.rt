//! Reading the current configuration and the target.
ghost use Rattle.std.specs.Prelude.{◌≡◌, true, false, Ok, Some, IfOk, IfErr};
ghost use Rattle.conf_change.specs.ChangeList.{changes_in};
ghost use Rattle.conf_change.specs.Configuration.{is_valid};
ghost use Rattle.conf_change.specs.PrintedConfig.{config_in};
ghost use Rattle.conf_change.specs.Violation.{valid_of, configuration_in};
ghost use Rattle.serde_json.specs.View.{view};
ghost use Rattle.raft_json.specs.JsonText.{json_in};
ghost use Rattle.plan_input.specs.MemberList.{has_members, is_member_list, is_member_list_as};
ghost use Rattle.plan_input.specs.Input.{as_text, bad_printed, valid_or, configuration_as, current_in, target_in, target_of_changes, IsFaultOf};

use crate::changed::after_changes;
use crate::form::{Form, form_of};
use crate::refusal::list_refusal;
use crate::text_fault::TextFault;
use crate::text_ids::has_text_ids;
use conf_change::{
    ConfState, ConfStateFault, Config, read_changes, read_config, read_configuration,
    valid_configuration,
};
use quorum_sets::InlineIds;
use raft_json::{JsonFault, json_in, saved_of};
use serde_json::Value;
use std::alloc::Global;

/// A current configuration, and whether its text is a list of members as etcdctl prints it: JSON of an object with the
/// key `members`.
#[derive(Drop)]
pub struct Current {
    pub config: Config<InlineIds>,
    pub is_member_list: bool,
}

/// The valid configuration that a text denotes, in the form that its beginning shows: JSON if it begins with `{`, a
/// ConfState line with `Voters:`, and a printed configuration with `voters`. Otherwise it is refused with UnknownForm.
pub fn read_current(alloc: Global, text: &[u8]) -> Result<Current, TextFault>
    ensures configuration { IfOk result (λ current. current_in text.now ≡ Ok current.config) }
    ensures valid { IfOk result (λ current. is_valid current.config ≡ true) }
    ensures list { IfOk result (λ current. current.is_member_list ≡ is_member_list text.now) }
    ensures fault { IfErr result (IsFaultOf (current_in text.now)) }
{
    read_as(alloc, form_of(text), text)
}

/// The target that a text denotes: a valid configuration as for [`read_current`], or else what a list of changes makes
/// of the current one. That is left first if it is joint, and then the changes are made all at once. The target is empty
/// if no voter is left. A token that is not a change is refused with BadChange, and a blank text with Empty. The first
/// change that is refused is one that removes an id which is not a member (NotAMember), or one that makes a member which
/// an earlier change removes a voter or a learner (AddedAgain). A change without effect is no error otherwise, so that a
/// command can be repeated.
pub fn read_target(
    alloc: Global,
    now: &Config<InlineIds>,
    text: &[u8],
) -> Result<Config<InlineIds>, TextFault>
    requires { is_valid now.now ≡ true }
    ensures configuration { IfOk result (λ c. target_in now.now text.now ≡ Ok c) }
    ensures valid { IfOk result (λ c. is_valid c ≡ true) }
    ensures fault { IfErr result (IsFaultOf (target_in now.now text.now)) }
{
    match form_of(text) {
        Form::Other => read_changed(alloc, now, text),
        form => read_as(alloc, form, text).map(|read| read.config),
    }
}

// The valid configuration that a text denotes in this form.
fn read_as(alloc: Global, form: Form, text: &[u8]) -> Result<Current, TextFault>
    ensures configuration { IfOk result (λ current. configuration_as form text.now
        ≡ Ok current.config) }
    ensures valid { IfOk result (λ current. is_valid current.config ≡ true) }
    ensures list { IfOk result (λ current. current.is_member_list
        ≡ is_member_list_as form text.now) }
    ensures fault { IfErr result (IsFaultOf (configuration_as form text.now)) }
{
    match form {
        Form::Json => read_json(alloc, text),
        Form::ConfStateLine => read_line(alloc, text),
        Form::Printed => read_printed(alloc, text),
        Form::Other => Err(TextFault::UnknownForm),
    }
}

// The valid configuration in JSON.
fn read_json(alloc: Global, text: &[u8]) -> Result<Current, TextFault>
    ensures configuration { IfOk result (λ current. configuration_as Form.Json text.now
        ≡ Ok current.config) }
    ensures valid { IfOk result (λ current. is_valid current.config ≡ true) }
    ensures list { IfOk result (λ current. current.is_member_list ≡ has_members text.now) }
    ensures fault { IfErr result (IsFaultOf (configuration_as Form.Json text.now)) }
{
    match json_in(alloc, text)? {
        Some(value) => read_value(alloc, text, &value),
        None => Err(TextFault::of_json(text, false)),
    }
}

// The valid configuration in the value of a text.
fn read_value(alloc: Global, text: &[u8], value: &Value) -> Result<Current, TextFault>
    requires { json_in text.now ≡ Some (view value.now) }
    ensures configuration { IfOk result (λ current. configuration_as Form.Json text.now
        ≡ Ok current.config) }
    ensures valid { IfOk result (λ current. is_valid current.config ≡ true) }
    ensures list { IfOk result (λ current. current.is_member_list ≡ has_members text.now) }
    ensures fault { IfErr result (IsFaultOf (configuration_as Form.Json text.now)) }
{
    match saved_of(alloc, value) {
        Ok(state) => valid(alloc, text, &state, value.get("members").is_some()),
        Err(JsonFault::BadJson) => Err(TextFault::of_json(text, has_text_ids(value))),
        Err(JsonFault::NoMemory) => Err(TextFault::NoMemory),
    }
}

// The valid configuration of a ConfState line.
fn read_line(alloc: Global, text: &[u8]) -> Result<Current, TextFault>
    ensures configuration { IfOk result (λ current.
        as_text text.now (configuration_in text.now) ≡ Ok current.config) }
    ensures valid { IfOk result (λ current. is_valid current.config ≡ true) }
    ensures list { IfOk result (λ current. current.is_member_list ≡ false) }
    ensures fault { IfErr result (IsFaultOf (as_text text.now (configuration_in text.now))) }
{
    match read_configuration(alloc, text) {
        Ok(config) => Ok(Current {
            config,
            is_member_list: false,
        }),
        Err(fault) => Err(TextFault::of_configuration(text, fault)),
    }
}

// The valid configuration of a printed one.
fn read_printed(alloc: Global, text: &[u8]) -> Result<Current, TextFault>
    ensures configuration { IfOk result (λ current.
        valid_or text.now (bad_printed text.now) (config_in text.now) ≡ Ok current.config) }
    ensures valid { IfOk result (λ current. is_valid current.config ≡ true) }
    ensures list { IfOk result (λ current. current.is_member_list ≡ false) }
    ensures fault { IfErr result
        (IsFaultOf (valid_or text.now (bad_printed text.now) (config_in text.now))) }
{
    match read_config(alloc, text) {
        Ok(state) => valid(alloc, text, &state, false),
        Err(ConfStateFault::BadConfState) => Err(TextFault::bad_printed(text)),
        Err(ConfStateFault::NoMemory) => Err(TextFault::NoMemory),
    }
}

// The valid configuration that the saved one of a text describes.
fn valid(
    alloc: Global,
    text: &[u8],
    state: &ConfState,
    is_member_list: bool,
) -> Result<Current, TextFault>
    ensures configuration { IfOk result (λ current.
        as_text text.now (valid_of state.now) ≡ Ok current.config) }
    ensures valid { IfOk result (λ current. is_valid current.config ≡ true) }
    ensures list { IfOk result (λ current. current.is_member_list ≡ is_member_list) }
    ensures fault { IfErr result (IsFaultOf (as_text text.now (valid_of state.now))) }
{
    match valid_configuration(alloc, state) {
        Ok(config) => Ok(Current {
            config,
            is_member_list,
        }),
        Err(fault) => Err(TextFault::of_configuration(text, fault)),
    }
}

// The target of the changes that a text denotes.
fn read_changed(
    alloc: Global,
    now: &Config<InlineIds>,
    text: &[u8],
) -> Result<Config<InlineIds>, TextFault>
    requires { is_valid now.now ≡ true }
    ensures configuration { IfOk result (λ c. target_of_changes now.now (changes_in text.now)
        ≡ Ok c) }
    ensures valid { IfOk result (λ c. is_valid c ≡ true) }
    ensures fault { IfErr result (IsFaultOf (target_of_changes now.now (changes_in text.now))) }
{
    let changes = read_changes(alloc, text)?;
    if let Some(why) = list_refusal(now, changes.as_slice()) {
        return Err(why);
    }
    Ok(after_changes(alloc, now, changes.as_slice())?)
}
