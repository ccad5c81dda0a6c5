//! What is known of the members, in the list at the key `progress`.
ghost use Rattle.std.specs.Prelude.{◌≡◌, Ok, IfOk, IfErr, option_and_then, option_map};
ghost use Rattle.serde_json.specs.View.{view};
ghost use Rattle.driver_json.specs.Values as spec;
ghost use Rattle.driver_json.specs.Values.{IsFaultOf};

use crate::line_fault::{Expected, LineFault};
use crate::place::{Key, MemberKey, Place};
use crate::values::number_in;
use conf_driver::MemberView;
use raft_json::flag_in;
use serde_json::Value;
use std::alloc::Global;

/// The members that a value lists, in its order. The list is empty if it is missing or null.
pub(crate) fn progress_in(
    alloc: Global,
    value: Option<&Value>,
) -> Result<Vec<MemberView>, LineFault>
    ensures members { IfOk result
        (λ members. spec.progress_in (option_map (λ v. view v.now) value.entry)
        ≡ Ok members.items) }
    ensures fault { IfErr result
        (IsFaultOf (spec.progress_in (option_map (λ v. view v.now) value.entry))) }
{
    match value {
        None | Some(Value::Null) => Ok(Vec::new(alloc)),
        Some(Value::Array(items)) => {
            let mut members = Vec::with_capacity(alloc, items.len())?;
            for (index, item) in items.iter().enumerate() {
                members.push(member_in(index, item)?)?;
            }
            Ok(members)
        }
        Some(_) => Err(LineFault::NotExpected(Place::AtKey(Key::Progress), Expected::Members)),
    }
}

// The member that the item with this index is.
fn member_in(index: usize, item: &Value) -> Result<MemberView, LineFault>
    ensures { result ≡ spec.member_in index (view item.now) }
{
    if !item.is_object() {
        return Err(LineFault::NotExpected(Place::AtMember(index), Expected::Member));
    }
    Ok(MemberView {
        id: id_in(item.get("id")).ok_or(not_expected(index, MemberKey::Id, Expected::Id))?,
        matched: number_in(item.get("match")).ok_or(not_expected(
            index,
            MemberKey::Match,
            Expected::Number,
        ))?,
        recent_active: flag_in(item.get("recent_active")).ok_or(not_expected(
            index,
            MemberKey::RecentActive,
            Expected::Flag,
        ))?,
    })
}

// The id that a value is. 0 is not an id.
fn id_in(value: Option<&Value>) -> Option<u64>
    ensures { result ≡ option_and_then spec.unless_zero
        (spec.number_in (option_map (λ v. view v.now) value.entry)) }
{
    match number_in(value) {
        Some(0) | None => None,
        Some(id) => Some(id),
    }
}

// That the value at a key of a member is not what is expected there.
fn not_expected(index: usize, key: MemberKey, expected: Expected) -> LineFault
    ensures { result ≡ spec.not_expected_in_member index key expected }
{
    LineFault::NotExpected(Place::InMember(index, key), expected)
}
