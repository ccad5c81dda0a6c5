//! Edits of a sorted list. The edits are in ascending order of their ids, as the items are, so the edited list is made
//! in one pass: what lies between two edited ids is copied as it is.
//!
//! ```text
//! (1 2 4 7)   --1 out, 3 in, 7 in-->   (2 3 4 7)
//! ```
ghost use Rattle.std.specs.Prelude.{◌≡◌, ℕ, ◌<◌, ◌≤◌, Bool, Option, Some, None, filter, map, length, slice_index, nat_lt, ◌++◌, IfSome, OnOk, OnErr, if◌then◌else◌};
ghost use Rattle.quorum_sets.specs.AscendingLists.{IsAscending};
ghost use Rattle.quorum_sets.specs.Edits.{item_of, edited, is_there-has_id};

use ascii_text::NoMemory;
use smallvec::SmallVec;

/// An item of a sorted list, which has the id by which the list is sorted.
pub trait Item: Copy + Default + Drop {
    /// The id of an item.
    ghost key: { Self → ℕ };

    /// The id.
    fn id(&self) -> u64
        ensures { result ≡ key self.now };
}

impl Item for u64 {
    ghost key = { λ id. id };

    fn id(&self) -> u64 {
        *self
    }
}

impl<V: Copy + Default + Drop> Item for (u64, V) {
    ghost key = { λ item. item.0 };

    fn id(&self) -> u64 {
        self.0
    }
}

/// What an edit makes of the item of an id. `C` is what else that depends on.
pub trait ItemEdit<T: Item, C>: Copy {
    /// The item after the edit.
    ghost item_after: { Self → C → ℕ → Option T → Option T };

    /// The item after the edit, given the one before it.
    fn item_after(self, context: &C, id: u64, item: Option<T>) -> Option<T>
        ensures { result ≡ item_after self context.now id item };

    /// It has the id.
    ghost has_id: { (edit : Self) (context : C) (id : ℕ) (item : Option T)
        → IfSome (item_after edit context id item) (λ after. T.key after ≡ id) };
}

/// What an edit makes of an id in a set: it is there or not. `C` names the set, where the edits are those of several
/// sets.
pub trait IdEdit<C>: Copy {
    /// Whether the set has the id after the edit.
    ghost is_in: { Self → C → Bool };

    /// Whether the set has the id after the edit.
    fn is_in(self, set: &C) -> bool
        ensures { result ≡ is_in self set.now };
}

impl<C, E: IdEdit<C>> ItemEdit<u64, C> for E {
    ghost item_after = { λ edit set id _. if E.is_in edit set then Some id else None };

    ghost has_id = { λ edit set id _. is_there-has_id (E.is_in edit set) id };

    fn item_after(self, set: &C, id: u64, _item: Option<u64>) -> Option<u64>
        ensures { result ≡ (if E.is_in self set.now then Some id else None) }
    {
        if self.is_in(set) { Some(id) } else { None }
    }
}

/// Overwrites `items` with `others`, but an edited id has the item that its edit gives.
pub fn merge<T: Item, C, E: ItemEdit<T, C>, const N: usize>(
    items: &mut SmallVec<T, N>,
    others: &[T],
    edits: &[(u64, E)],
    context: &C,
) -> Result<(), NoMemory>
    requires others { IsAscending (map T.key others.now) }
    requires edits { IsAscending (map (λ e. e.0) edits.now) }
    ensures ascends { IsAscending (map T.key items.new.items) }
    ensures capacity { items.old.capacity ≤ items.new.capacity }
    ensures merged { OnOk result ((id : ℕ) → item_of T.key id items.new.items
        ≡ edited (λ e. E.item_after e context.now id) edits.now id (item_of T.key id others.now)) }
{
    items.clear();
    let mut rest = others;
    for (id, edit) in edits {
        let (below, item, above) = cut(rest, *id);
        append(items, below)?;
        if let Some(after) = edit.item_after(context, *id, item) {
            items.push(after)?;
        }
        rest = above;
    }
    append(items, rest)?;
    Ok(())
}

// Appends a run of items. Most runs are empty: a set has few of the ids that the edits name, and no others between them.
fn append<T: Item, const N: usize>(items: &mut SmallVec<T, N>, run: &[T]) -> Result<(), NoMemory>
    ensures ok { OnOk result (items.new.items ≡ items.old.items ++ run.now) }
    ensures err { OnErr result (items.new.items ≡ items.old.items) }
    ensures capacity { items.old.capacity ≤ items.new.capacity }
{
    if !run.is_empty() {
        items.extend_from_slice(run)?;
    }
    Ok(())
}

// The items below an id, the item of the id, and the items above it.
fn cut<T: Item>(items: &[T], id: u64) -> (&[T], Option<T>, &[T])
    requires { IsAscending (map T.key items.now) }
    ensures below { result.0.now ≡ filter (λ item. nat_lt (T.key item) id) items.now }
    ensures item { result.1 ≡ item_of T.key id items.now }
    ensures above { result.2.now ≡ filter (λ item. nat_lt id (T.key item)) items.now }
{
    let (below, rest) = items.split_at(count_below(items, id));
    let Some(item) = rest.first().copied() else {
        return (below, None, rest);
    };
    if item.id() != id {
        return (below, None, rest);
    }
    (below, Some(item), &rest[1..])
}

// How many items are below an id.
fn count_below<T: Item>(items: &[T], id: u64) -> usize
    ensures within { result ≤ length items.now }
    ensures below { (k : ℕ) → k < result → slice_index (map T.key items.now) k < id }
    ensures next { result < length items.now → id ≤ slice_index (map T.key items.now) result }
{
    for (position, item) in items.iter().enumerate() {
        if item.id() >= id {
            return position;
        }
    }
    items.len()
}
