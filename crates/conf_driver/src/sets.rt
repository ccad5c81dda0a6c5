//! Sets of ids that are made from others.
ghost use Rattle.std.specs.Prelude.{◌≡◌, if◌then◌else◌, IfOk};
ghost use Rattle.conf_driver.specs.IdSets as spec;
ghost use Rattle.conf_driver.specs.IdSets.{◌∩◌, ◌∖◌};

use quorum_sets::{IdList, InlineIds, MemberSet, NoMemory, contains_from};
use std::alloc::Global;

// The ids that are in both sets.
pub(crate) fn common(a: &InlineIds, b: &InlineIds) -> Result<InlineIds, NoMemory>
    ensures { IfOk result (λ ids. ids ≡ (a.now ∩ b.now)) }
{
    kept(a, b, true)
}

// The ids of the first set that are not in the second.
pub(crate) fn without(a: &InlineIds, b: &InlineIds) -> Result<InlineIds, NoMemory>
    ensures { IfOk result (λ ids. ids ≡ (a.now ∖ b.now)) }
{
    kept(a, b, false)
}

// The ids of the first set that are in the second, or those that are not. Each set is read once.
fn kept(a: &InlineIds, b: &InlineIds, in_second: bool) -> Result<InlineIds, NoMemory>
    ensures { IfOk result (λ ids. ids ≡ (if in_second then a.now ∩ b.now else a.now ∖ b.now)) }
{
    let mut ids = IdList::new(a.allocator());
    let mut position = 0;
    for id in a.as_slice() {
        if contains_from(b, &mut position, *id) == in_second {
            ids.push(*id)?;
        }
    }
    InlineIds::of_list(a.allocator(), ids.as_slice())
}

// The set of one id.
pub(crate) fn just(alloc: Global, id: u64) -> Result<InlineIds, NoMemory>
    ensures { IfOk result (λ ids. ids ≡ spec.just id) }
{
    InlineIds::of_list(alloc, &[id])
}

// The first set, or the second if the first is empty.
pub(crate) fn or_else(a: InlineIds, b: InlineIds) -> InlineIds
    ensures { result ≡ spec.or_else a b }
{
    if a.len() == 0 { b } else { a }
}
