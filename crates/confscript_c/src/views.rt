//! Views in numbers, for a program that asks what to do next. An array begins with five numbers and three counts, and
//! continues with three numbers for each member, the servers that run, and the ids that are retired:
//!
//! ```text
//! 57, 1, 60, 0, 8,  3, 3, 0,  1, 60, 1,  2, 60, 1,  3, 52, 0,  1, 2, 3
//! ```
//!
//! The configuration is known at index 57, 1 leads, 60 is committed, no change is pending, and a member that has caught
//! up lacks at most 8 entries. 1 and 2 have all entries and were heard from; 3 has 52, and was not. 1 to 3 run.
ghost use Rattle.std.specs.Prelude.{◌≡◌, ◌<◌, true, Ok, IfOk, IfErr};
ghost use Rattle.std.specs.List.{slice_index};
ghost use Rattle.confscript_c.specs.Answer.{Refuses};
ghost use Rattle.confscript_c.specs.Views as spec;

use crate::answer::Answer;
use crate::status::Status;
use conf_change::Config;
use conf_driver::{MemberView, View};
use quorum_sets::{InlineIds, MemberSet, NoMemory};
use std::alloc::Global;

/// The view of an array, in which a configuration is applied. The form is looked at first, then the ids of the members,
/// the servers that run, and those that are retired. 0 is not an id of these.
pub(crate) fn view_in(
    alloc: Global,
    now: Config<InlineIds>,
    numbers: &[u64],
) -> Result<View, Answer>
    ensures view { IfOk result (λ view. spec.view_in now numbers.now ≡ Ok view) }
    ensures now { IfOk result (λ view. view.conf_state ≡ now) }
    ensures refused { IfErr result (Refuses (spec.view_in now numbers.now)) }
{
    if !has_view_form(numbers) {
        return Err(Answer::new(Status::DifferentLengths, 0));
    }
    if !has_ids(numbers) {
        return Err(Answer::new(Status::ZeroId, 0));
    }
    let running = 8 + 3 * numbers[5] as usize;
    let retired = running + numbers[6] as usize;
    let running = ids_in(alloc, &numbers[running..retired])?;
    let retired = ids_in(alloc, &numbers[retired..])?;
    Ok(View {
        conf_state: now,
        conf_index: numbers[0],
        lead: numbers[1],
        commit: numbers[2],
        pending_conf_index: numbers[3],
        progress: members_in(alloc, numbers)?,
        running,
        retired,
        max_lag: numbers[4],
    })
}

// Whether an array has five numbers, three counts, as many numbers as they count, and a flag for each member.
fn has_view_form(numbers: &[u64]) -> bool
    ensures { result ≡ spec.has_view_form numbers.now }
{
    has_length(numbers) && has_flags(numbers)
}

// Whether an array has five numbers, three counts, and as many numbers as they count.
fn has_length(numbers: &[u64]) -> bool
    ensures { result ≡ spec.has_length numbers.now }
{
    if numbers.len() < 8 {
        return false;
    }
    let counted = numbers[5]
        .saturating_mul(3)
        .saturating_add(numbers[6])
        .saturating_add(numbers[7]);
    counted == (numbers.len() - 8) as u64
}

// Whether the third number of each member is 0 or 1.
fn has_flags(numbers: &[u64]) -> bool
    requires { spec.has_length numbers.now ≡ true }
    ensures { result ≡ spec.have_flags numbers.now }
{
    for member in 0..numbers[5] as usize {
        if numbers[8 + 3 * member + 2] > 1 {
            return false;
        }
    }
    true
}

// Whether the id of no member is 0.
fn has_ids(numbers: &[u64]) -> bool
    requires { spec.has_length numbers.now ≡ true }
    ensures { result ≡ spec.have_ids numbers.now }
{
    for member in 0..numbers[5] as usize {
        if numbers[8 + 3 * member] == 0 {
            return false;
        }
    }
    true
}

// The members of an array, in its order.
fn members_in(alloc: Global, numbers: &[u64]) -> Result<Vec<MemberView>, NoMemory>
    requires { spec.has_length numbers.now ≡ true }
    ensures { IfOk result (λ members. members.items ≡ spec.members_in numbers.now) }
{
    let mut members = Vec::new(alloc);
    for member in 0..numbers[5] as usize {
        members.push(member_in(numbers, member))?;
    }
    Ok(members)
}

// A member of an array, counted from 0.
fn member_in(numbers: &[u64], member: usize) -> MemberView
    requires length { spec.has_length numbers.now ≡ true }
    requires counted { member < slice_index numbers.now 5 }
    ensures { result ≡ spec.member_in numbers.now member }
{
    let first = 8 + 3 * member;
    MemberView {
        id: numbers[first],
        matched: numbers[first + 1],
        recent_active: numbers[first + 2] == 1,
    }
}

// A set of ids. 0 is not an id.
fn ids_in(alloc: Global, ids: &[u64]) -> Result<InlineIds, Answer>
    ensures ids { IfOk result (λ set. spec.ids_or_answer ids.now ≡ Ok set) }
    ensures refused { IfErr result (Refuses (spec.ids_or_answer ids.now)) }
{
    let set = InlineIds::of_list(alloc, ids)?;
    if set.contains(0) {
        return Err(Answer::new(Status::ZeroId, 0));
    }
    Ok(set)
}
