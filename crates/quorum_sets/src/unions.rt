//! The union of two sets, such as all voters of a joint configuration.
ghost use Rattle.std.specs.Prelude.{◌≡◌, IfOk};
ghost use Rattle.quorum_sets.specs.Ids as spec;

use crate::lists::add_ids;
use crate::member_set::MemberSet;
use ascii_text::NoMemory;
use smallvec::SmallVec;

/// The union of two sets: (1 2 3) and (2 3 4) give (1 2 3 4).
pub fn union<S: MemberSet>(a: &S, b: &S) -> Result<S, NoMemory>
    ensures { IfOk result (λ both. S.ids both ≡ spec.union (S.ids a.now) (S.ids b.now)) }
{
    if b.len() == 0 {
        return a.try_clone();
    }
    let alloc = a.allocator();
    let mut ids = SmallVec::new(alloc);
    add_ids(&mut ids, a)?;
    add_ids(&mut ids, b)?;
    S::of_list(alloc, ids.as_slice())
}
