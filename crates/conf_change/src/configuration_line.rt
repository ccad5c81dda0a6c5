//! The valid configuration that a ConfState or its line describes, for input that a user wrote by hand.
//!
//! What names no source here is own.
ghost use Rattle.std.specs.Prelude.{◌≡◌, ◌⊎◌, true, Some, None, Ok, Err, option_and_then, IfOk, IfErr};
ghost use Rattle.conf_change.specs.Configuration.{is_valid};
ghost use Rattle.conf_change.specs.ConfStateLine.{conf_state_in};
ghost use Rattle.conf_change.specs.Described.{described};
ghost use Rattle.conf_change.specs.Violation.{first_repeat, repeat_in, valid_of, configuration_in};

use crate::conf_state_line::read_conf_state;
use crate::config::Config;
use crate::restore::{RestoreFault, fill_sets};
use crate::saved_configuration::{ConfState, ConfStateFault, SavedLists};
use crate::violation::{Violation, first_violation};
use quorum_sets::{MemberSet, NoMemory, TreeIds};
use std::alloc::Global;
use thiserror::Error;

/// Why a line describes no valid configuration.
#[derive(Clone, Copy, Debug, PartialEq, Eq, Error)]
pub enum ConfigurationFault {
    /// It is not a ConfState line.
    #[error("bad conf state: expected Voters:[1 2] VotersOutgoing:[] Learners:[3] LearnersNext:[] AutoLeave:false")]
    BadConfState,
    /// It describes no valid configuration, for this reason.
    #[error("not a configuration: {0}")]
    NotAConfiguration(Violation),
    /// An allocation failed.
    #[error("out of memory")]
    NoMemory,
}

impl From<NoMemory> for ConfigurationFault {
    ghost use Rattle.conf_change.specs.declared.configuration_line.ConfigurationFault.TheVariants.{NoMemory};

    ghost from_gives = { λ _ fault. fault ≡ NoMemory };

    fn from(_error: NoMemory) -> ConfigurationFault {
        ConfigurationFault::NoMemory
    }
}

impl From<ConfStateFault> for ConfigurationFault {
    ghost use Rattle.conf_change.specs.Violation.{line_fault_of};

    ghost from_gives = { λ fault converted. converted ≡ line_fault_of fault };

    fn from(fault: ConfStateFault) -> ConfigurationFault {
        match fault {
            ConfStateFault::BadConfState => ConfigurationFault::BadConfState,
            ConfStateFault::NoMemory => ConfigurationFault::NoMemory,
        }
    }
}

/// Reads a line in the form that `write_conf_state` appends, and returns the valid configuration that it describes.
/// Any other line is refused with the first reason, such as `3 is listed twice`.
pub fn read_configuration<S: MemberSet>(
    alloc: Global,
    line: &[u8],
) -> Result<Config<S>, ConfigurationFault>
    ensures configuration { IfOk result (λ c. configuration_in line.now ≡ Ok c) }
    ensures valid { IfOk result (λ c. is_valid c ≡ true) }
    ensures described { IfOk result
        (λ c. option_and_then described (conf_state_in line.now) ≡ Some c) }
    ensures fault { IfErr result (λ fault. (fault ≡ ConfigurationFault.NoMemory)
        ⊎ (configuration_in line.now ≡ Err fault)) }
{
    match read_conf_state(alloc, line) {
        Ok(state) => valid_configuration(alloc, &state),
        Err(fault) => Err(ConfigurationFault::from(fault)),
    }
}

/// The valid configuration that a ConfState describes. It may have members but no incoming voter, unlike one that is
/// restored. Any other ConfState is refused with the first reason.
pub fn valid_configuration<S: MemberSet>(
    alloc: Global,
    state: &ConfState,
) -> Result<Config<S>, ConfigurationFault>
    ensures configuration { IfOk result (λ c. valid_of state.now ≡ Ok c) }
    ensures valid { IfOk result (λ c. is_valid c ≡ true) }
    ensures described { IfOk result (λ c. described state.now ≡ Some c) }
    ensures fault { IfErr result
        (λ fault. (fault ≡ ConfigurationFault.NoMemory) ⊎ (valid_of state.now ≡ Err fault)) }
{
    valid_lists(alloc, &state.lists())
}

/// As [`valid_configuration`], of lists that are borrowed.
pub fn valid_lists<S: MemberSet>(
    alloc: Global,
    lists: &SavedLists<'_>,
) -> Result<Config<S>, ConfigurationFault>
    ensures configuration { IfOk result (λ c. valid_of lists.now ≡ Ok c) }
    ensures valid { IfOk result (λ c. is_valid c ≡ true) }
    ensures described { IfOk result (λ c. described lists.now ≡ Some c) }
    ensures fault { IfErr result
        (λ fault. (fault ≡ ConfigurationFault.NoMemory) ⊎ (valid_of lists.now ≡ Err fault)) }
{
    let mut config = Config::empty(alloc);
    match fill_sets(alloc, &mut config, lists) {
        Ok(()) => {}
        Err(RestoreFault::NotAConfiguration) => return Err(listed_twice(alloc, lists)),
        Err(RestoreFault::NoMemory) => return Err(ConfigurationFault::NoMemory),
    }
    match first_violation(&config) {
        None => Ok(config),
        Some(violation) => Err(ConfigurationFault::NotAConfiguration(violation)),
    }
}

// The error for a ConfState with a list that names an id twice.
fn listed_twice(alloc: Global, lists: &SavedLists<'_>) -> ConfigurationFault
    requires { described lists.now ≡ None }
    ensures { (result ≡ ConfigurationFault.NoMemory) ⊎ (valid_of lists.now ≡ Err result) }
{
    match repeat_in(alloc, lists) {
        Ok(Some(id)) => ConfigurationFault::NotAConfiguration(Violation::ListedTwice(id)),
        Ok(None) => unreachable!(),
        Err(NoMemory) => ConfigurationFault::NoMemory,
    }
}

// The first id that one of the four lists names twice.
fn repeat_in(alloc: Global, lists: &SavedLists<'_>) -> Result<Option<u64>, NoMemory>
    ensures { IfOk result (λ id. id ≡ repeat_in lists.now) }
{
    let voters = first_repeat(alloc, lists.voters)?;
    let voters_outgoing = first_repeat(alloc, lists.voters_outgoing)?;
    let learners = first_repeat(alloc, lists.learners)?;
    let learners_next = first_repeat(alloc, lists.learners_next)?;
    Ok(voters.or(voters_outgoing).or(learners).or(learners_next))
}

// The first id in a list that occurs in it again: of `[1 2 3 2 1]` it is 1.
fn first_repeat(alloc: Global, list: &[u64]) -> Result<Option<u64>, NoMemory>
    ensures { IfOk result (λ id. id ≡ first_repeat list.now) }
{
    let mut later = TreeIds::empty(alloc);
    let mut repeat = None;
    let mut position = list.len();
    while position > 0 {
        position -= 1;
        if !later.insert(list[position])? {
            repeat = Some(list[position]);
        }
    }
    Ok(repeat)
}
