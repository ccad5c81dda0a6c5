//! The ids of a set that pass a test, such as the new voters of a target.
ghost use Rattle.std.specs.Prelude.{◌≡◌, ◌++◌, ℕ, Bool, IfOk, OnOk, filter};
ghost use Rattle.quorum_sets.specs.Counting.{Computes};
ghost use Rattle.quorum_sets.specs.Ids.{ascending, ids_where};

use quorum_sets::{IdList, MemberSet, NoMemory};
use smallvec::SmallVec;
use std::alloc::Global;

// The ids that pass the test.
pub(crate) fn filtered<S: MemberSet, F: Fn(u64) -> bool>(
    alloc: Global,
    ids: &S,
    test: F,
) -> Result<S, NoMemory>
    requires { F.IsAlwaysCallable test }
    ensures { (passes : ℕ → Bool) → Computes (F.post test) passes
        → IfOk result (λ filtered. S.ids filtered ≡ ids_where passes (ascending (S.ids ids.now))) }
{
    let mut list = SmallVec::new(alloc);
    add_filtered(&mut list, ids, test)?;
    S::of_list(alloc, list.as_slice())
}

// Appends the ids that pass the test, which is called once for each, in ascending order.
pub(crate) fn add_filtered<S: MemberSet, F: Fn(u64) -> bool>(
    list: &mut IdList,
    ids: &S,
    test: F,
) -> Result<(), NoMemory>
    requires { F.IsAlwaysCallable test }
    ensures { (passes : ℕ → Bool) → Computes (F.post test) passes
        → OnOk result (list.new.items
        ≡ list.old.items ++ filter passes (ascending (S.ids ids.now))) }
{
    for index in 0..ids.len() {
        if let Some(id) = ids.at(index) {
            if test(id) {
                list.push(id)?;
            }
        }
    }
    Ok(())
}
