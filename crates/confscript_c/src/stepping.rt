//! One step of a configuration in numbers. Here 4 becomes a voter, and 1 is removed:
//!
//! ```text
//! 0, 3, 0, 0, 0, 0,  1, 2, 3    by the voter 4, the removal of 1, explicit
//! 0, 3, 3, 0, 0, 1,  2, 3, 4,  1, 2, 3,  4
//! ```
//!
//! The last id, 4, is catching up; the others keep their progress.
ghost use Rattle.std.specs.Prelude.{◌≡◌, [], ◌∷◌, ◌++◌, Ok, IfOk, IfErr, OnOk};
ghost use Rattle.confscript_c.specs.Answer.{Refuses};
ghost use Rattle.confscript_c.specs.Stepped as spec;
ghost use Rattle.confscript_c.specs.Stepped.{changes_from, kind_of_number, step_kind_at, step_result};
ghost use Rattle.confscript_c.specs.Written.{Writes};

use crate::answer::Answer;
use crate::applying::refusal;
use crate::buffer::write_out;
use crate::numbers::{Numbers, configuration_of, numbers_of};
use crate::status::Status;
use conf_change::{Change, Config, Kind, StepKind, Transition, next_config, taken};
use conf_plan::catching_up_by;
use quorum_sets::{InlineIds, NoMemory};
use smallvec::SmallVec;
use std::alloc::Global;

/// A change, as `struct confscript_change`: the number of its kind, which is that of etcd's `raftpb.ConfChangeType`,
/// and the id.
#[repr(C)]
#[derive(Clone, Copy)]
pub struct NumberedChange {
    /// 0 makes the id a voter, 1 removes it, 2 has no effect, and 3 makes it a learner.
    pub kind: u32,
    /// The id that changes.
    pub id: u64,
}

/// Applies changes to a configuration by one step, and writes the configuration after it, with the members that catch
/// up. The number is how many numbers are written. The step is one of the list of changes, by a transition (0 auto,
/// 1 implicit, 2 explicit), a simple one (3), or leaving (4). The call is refused if the configuration is, as by
/// `confscript_restore`, if the kind of a change or the step is unknown, or if the step is refused (etcd's `confchange`
/// and `raftpb`).
#[unsafe(no_mangle)]
pub extern "C" fn confscript_step(
    alloc: Global,
    configuration: &[u64],
    step: u32,
    changes: &[NumberedChange],
    out: &mut [u64],
) -> Answer
    ensures { Writes (step_result configuration.now step changes.now) out.old result out.new }
{
    match stepped(alloc, configuration, step, changes) {
        Ok(numbers) => write_out(numbers.as_slice(), out),
        Err(why) => why,
    }
}

// The array after the step, or the answer with the reason why there is none.
fn stepped(
    alloc: Global,
    configuration: &[u64],
    step: u32,
    changes: &[NumberedChange],
) -> Result<Numbers, Answer>
    ensures numbers { IfOk result (λ numbers. step_result configuration.now step changes.now
        ≡ Ok numbers.items) }
    ensures refused { IfErr result (Refuses (step_result configuration.now step changes.now)) }
{
    let config = configuration_of(alloc, configuration)?;
    let changes = read_changes(alloc, changes)?;
    let kind = step_kind_at(step, changes.as_slice())?;
    array_after(alloc, &config, kind, changes.as_slice())
}

// The changes, or the answer for the first whose kind is unknown.
fn read_changes(alloc: Global, numbered: &[NumberedChange]) -> Result<SmallVec<Change, 8>, Answer>
    ensures changes { IfOk result (λ changes. changes_from 1 numbered.now ≡ Ok changes.items) }
    ensures refused { IfErr result (Refuses (changes_from 1 numbered.now)) }
{
    let mut changes = SmallVec::new(alloc);
    for index in 0..numbered.len() {
        let NumberedChange { kind, id } = numbered[index];
        let Some(kind) = kind_of_number(kind) else {
            return Err(Answer::new(Status::BadChange, index as u64 + 1));
        };
        append(&mut changes, Change { kind, id })?;
    }
    Ok(changes)
}

// Appends a change.
fn append(changes: &mut SmallVec<Change, 8>, change: Change) -> Result<(), NoMemory>
    ensures { OnOk result (changes.new.items ≡ changes.old.items ++ change ∷ []) }
{
    changes.push(change)?;
    Ok(())
}

// The kind of a change with this number.
fn kind_of_number(number: u32) -> Option<Kind>
    ensures { result ≡ kind_of_number number }
{
    match number {
        0 => Some(Kind::Voter),
        1 => Some(Kind::Remove),
        2 => Some(Kind::Update),
        3 => Some(Kind::Learner),
        _ => None,
    }
}

// The kind of the step with this number in `enum confscript_step_kind`.
fn step_kind_at(number: u32, changes: &[Change]) -> Result<StepKind, Answer>
    ensures { result ≡ step_kind_at number changes.now }
{
    match number {
        0 => Ok(taken(Transition::Auto, changes)),
        1 => Ok(taken(Transition::Implicit, changes)),
        2 => Ok(taken(Transition::Explicit, changes)),
        3 => Ok(StepKind::Simple),
        4 => Ok(StepKind::Leave),
        _ => Err(Answer::new(Status::BadStep, 0)),
    }
}

// The array of the configuration after a step, or the answer for its refusal.
fn array_after(
    alloc: Global,
    config: &Config<InlineIds>,
    kind: StepKind,
    changes: &[Change],
) -> Result<Numbers, Answer>
    ensures numbers { IfOk result (λ numbers. spec.stepped config.now changes.now (Ok kind)
        ≡ Ok numbers.items) }
    ensures refused { IfErr result (Refuses (spec.stepped config.now changes.now (Ok kind))) }
{
    let after = next_config(config, kind, changes).map_err(|refused| refusal(refused, 0))?;
    let catching_up = catching_up_by(alloc, config, kind, changes, &after)?;
    Ok(numbers_of(alloc, &after, &catching_up)?)
}
