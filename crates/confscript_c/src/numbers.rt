//! Configurations in numbers: an array of a flag, five counts, and the ids that they count. A program that keeps its
//! configuration so has no text to read or write:
//!
//! ```text
//! (1 2)&&(1 2 3) learners_next=(3) autoleave   is   1, 2, 3, 0, 1, 0,  1, 2,  1, 2, 3,  3
//! ```
//!
//! The last count is that of the members that catch up. They belong to the step that led to the configuration, so
//! what comes out of one call goes into the next as it is.
ghost use Rattle.std.specs.Prelude.{◌≡◌, [], ◌∷◌, ◌++◌, true, Ok, IfOk, IfErr, OnOk};
ghost use Rattle.quorum_sets.specs.Ids.{size};
ghost use Rattle.conf_change.specs.Configuration.{is_valid};
ghost use Rattle.confscript_c.specs.Answer.{Refuses};
ghost use Rattle.confscript_c.specs.Numbers as spec;
ghost use Rattle.confscript_c.specs.Numbers.{has_form, lists_in, violation_answer, fault_answer, configuration_of, flag_number, numbers_of, valid_configuration_of};

use crate::answer::Answer;
use crate::status::Status;
use conf_change::{
    Config, ConfigurationFault, SavedLists, Violation, has_voter_or_is_empty, valid_lists,
};
use quorum_sets::{InlineIds, MemberSet, NoMemory};
use smallvec::SmallVec;
use std::alloc::Global;

/// The numbers of an array; those of a configuration with few members take no allocation.
pub(crate) type Numbers = SmallVec<u64, 64>;

/// The configuration of an array. It must be valid, and have an incoming voter or no members, as one that etcd's
/// `confchange.Restore` restores.
pub(crate) fn configuration_of(alloc: Global, numbers: &[u64]) -> Result<Config<InlineIds>, Answer>
    ensures configuration { IfOk result (λ c. configuration_of numbers.now ≡ Ok c) }
    ensures refused { IfErr result (Refuses (configuration_of numbers.now)) }
{
    with_voter(valid_configuration_of(alloc, numbers)?)
}

/// The configuration of an array. It must be valid; it may have members and no voter.
pub(crate) fn valid_configuration_of(
    alloc: Global,
    numbers: &[u64],
) -> Result<Config<InlineIds>, Answer>
    ensures configuration { IfOk result (λ c. valid_configuration_of numbers.now ≡ Ok c) }
    ensures valid { IfOk result (λ c. is_valid c ≡ true) }
    ensures refused { IfErr result (Refuses (valid_configuration_of numbers.now)) }
{
    if !has_form(numbers) {
        return Err(Answer::new(Status::DifferentLengths, 0));
    }
    match valid_lists(alloc, &lists_in(numbers)) {
        Ok(config) => Ok(config),
        Err(fault) => Err(fault_answer(fault, Answer::new(Status::DifferentLengths, 0))),
    }
}

// Whether an array has a flag, five counts, and as many ids as they count.
fn has_form(numbers: &[u64]) -> bool
    ensures { result ≡ has_form numbers.now }
{
    if numbers.len() < 6 {
        return false;
    }
    let counted = numbers[1]
        .saturating_add(numbers[2])
        .saturating_add(numbers[3])
        .saturating_add(numbers[4])
        .saturating_add(numbers[5]);
    numbers[0] <= 1 && counted == (numbers.len() - 6) as u64
}

// The saved configuration of an array.
fn lists_in(numbers: &[u64]) -> SavedLists<'_>
    requires { has_form numbers.now ≡ true }
    ensures { result ≡ lists_in numbers.now }
{
    let outgoing = 6 + numbers[1] as usize;
    let learners = outgoing + numbers[2] as usize;
    let learners_next = learners + numbers[3] as usize;
    let catching_up = learners_next + numbers[4] as usize;
    SavedLists {
        voters: &numbers[6..outgoing],
        voters_outgoing: &numbers[outgoing..learners],
        learners: &numbers[learners..learners_next],
        learners_next: &numbers[learners_next..catching_up],
        auto_leave: numbers[0] == 1,
    }
}

// The configuration, unless it has members but no incoming voter.
fn with_voter(config: Config<InlineIds>) -> Result<Config<InlineIds>, Answer>
    ensures { result ≡ spec.with_voter config }
{
    if has_voter_or_is_empty(&config) {
        Ok(config)
    } else {
        Err(Answer::new(Status::NoVoter, 0))
    }
}

/// The answer for a configuration that is not valid, or this one if it could not be read.
pub(crate) fn fault_answer(fault: ConfigurationFault, unread: Answer) -> Answer
    ensures { result ≡ fault_answer fault unread }
{
    match fault {
        ConfigurationFault::BadConfState => unread,
        ConfigurationFault::NotAConfiguration(violation) => violation_answer(violation),
        ConfigurationFault::NoMemory => Answer::no_memory(),
    }
}

// The answer for an id that is listed twice or a broken invariant. The number is the id, if there is one.
fn violation_answer(violation: Violation) -> Answer
    ensures { result ≡ violation_answer violation }
{
    match violation {
        Violation::ListedTwice(id) => Answer::new(Status::RepeatedId, id),
        Violation::ZeroId => Answer::new(Status::ZeroId, 0),
        Violation::NextNotOutgoing(id) => Answer::new(Status::NextNotOutgoing, id),
        Violation::NextAndIncoming(id) => Answer::new(Status::NextAndIncoming, id),
        Violation::LearnerAndVoter(id) => Answer::new(Status::LearnerAndVoter, id),
        Violation::NotJointButAutoLeave => Answer::new(Status::NotJointButAutoLeave, 0),
    }
}

/// The array of a configuration with the members that are catching up.
pub(crate) fn numbers_of(
    alloc: Global,
    config: &Config<InlineIds>,
    catching_up: &InlineIds,
) -> Result<Numbers, NoMemory>
    ensures { IfOk result (λ numbers. numbers.items ≡ numbers_of config.now catching_up.now) }
{
    let mut numbers = SmallVec::new(alloc);
    append_configuration(&mut numbers, config, catching_up)?;
    Ok(numbers)
}

/// Appends the array of a configuration with the members that are catching up.
pub(crate) fn append_configuration(
    numbers: &mut Numbers,
    config: &Config<InlineIds>,
    catching_up: &InlineIds,
) -> Result<(), NoMemory>
    ensures { OnOk result (numbers.new.items
        ≡ numbers.old.items ++ numbers_of config.now catching_up.now) }
{
    append_counts(numbers, config, catching_up)?;
    numbers.extend_from_slice(config.incoming.as_slice())?;
    numbers.extend_from_slice(config.outgoing.as_slice())?;
    numbers.extend_from_slice(config.learners.as_slice())?;
    numbers.extend_from_slice(config.learners_next.as_slice())?;
    numbers.extend_from_slice(catching_up.as_slice())?;
    Ok(())
}

// Appends the flag, and how many ids each part has.
fn append_counts(
    numbers: &mut Numbers,
    config: &Config<InlineIds>,
    catching_up: &InlineIds,
) -> Result<(), NoMemory>
    ensures { OnOk result (numbers.new.items ≡ numbers.old.items
        ++ flag_number config.now.auto_leave
        ∷ size config.now.incoming ∷ size config.now.outgoing ∷ size config.now.learners
        ∷ size config.now.learners_next ∷ size catching_up.now ∷ []) }
{
    numbers.push(flag_number(config.auto_leave))?;
    numbers.push(config.incoming.len() as u64)?;
    numbers.push(config.outgoing.len() as u64)?;
    numbers.push(config.learners.len() as u64)?;
    numbers.push(config.learners_next.len() as u64)?;
    numbers.push(catching_up.len() as u64)?;
    Ok(())
}

/// The number of a flag.
pub(crate) fn flag_number(auto_leave: bool) -> u64
    ensures { result ≡ flag_number auto_leave }
{
    if auto_leave { 1 } else { 0 }
}
