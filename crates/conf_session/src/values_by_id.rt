//! The values that a command names for the ids of a quorum: votes, or acknowledged indexes. The calls of `quorum_sets`
//! ask for them id by id.
ghost use Rattle.std.specs.Prelude.{MatchResult};
ghost use Rattle.quorum_sets.specs.AscendingLists.{IsAscending, IsAtPosition, IsInsertionPoint};

use crate::session_ids::SessionIds;
use crate::values::Values;
use quorum_sets::{AckSource, MemberSet, NoMemory, VoteSource, list_of};
use std::alloc::Global;

/// Ids in ascending order, and the value of each, at the same index: `None` inside if it is unknown, written `_`, and
/// `None` while none is assigned.
#[derive(Drop)]
pub(crate) struct ValuesById<V: Drop> {
    ids: Vec<u64>,
    values: Vec<Option<Option<V>>>,
    ghost ascends: { IsAscending ids.items },
}

impl<V: Copy + Drop> ValuesById<V> {
    ghost use Rattle.std.specs.Prelude.{◌≡◌, true, length, replicate, None, IfOk, IfSome, is_some};
    ghost use Rattle.std.specs.FinMap as finite;
    ghost use Rattle.quorum_sets.specs.Ids.{ascending, ids_of};
    ghost use Rattle.conf_session.specs.Quorum.{each_once, ids_named, is_one_each, known, map_of, values_by_id};

    /// The values of the ids of `cfg` in their order, and then of those of `cfgj`. An id that is repeated or in both
    /// lists has one value, as in etcd's tests. `None` if there are more or fewer values than ids.
    pub(crate) fn new(
        alloc: Global,
        arguments: &Values,
        values: &[Option<V>],
    ) -> Result<Option<ValuesById<V>>, NoMemory>
        ensures one_each { IfOk result (λ by_id. is_some by_id
            ≡ is_one_each (ids_named arguments.now) values.now) }
        ensures values { IfOk result (λ by_id. IfSome by_id (λ own.
            map_of own ≡ values_by_id (ids_named arguments.now) values.now)) }
    {
        let mut named = Vec::new(alloc);
        named.extend_from_slice(arguments.incoming.as_slice())?;
        named.extend_from_slice(arguments.outgoing.as_slice())?;
        let ids = list_of(alloc, &SessionIds::of_list(alloc, named.as_slice())?)?;
        let mut own = Vec::new(alloc);
        own.resize(ids.len(), None)?;
        if ValuesById::assign(own.as_mut_slice(), ids.as_slice(), named.as_slice(), values) {
            Ok(Some(ValuesById { ids, values: own }))
        } else {
            Ok(None)
        }
    }

    // Assigns the values to the ids of a list in their order, one each, and returns whether there are as many. They come in
    // ascending order of the ids.
    fn assign(
        own: &mut [Option<Option<V>>],
        ids: &[u64],
        named: &[u64],
        values: &[Option<V>],
    ) -> bool
        requires ids { ids.now ≡ ascending (ids_of named.now) }
        requires own { own.old ≡ replicate (length ids.now) None }
        ensures one_each { result ≡ is_one_each (each_once named.now) values.now }
        ensures values { result ≡ true
            → values_by_id ids.now (known own.new) ≡ values_by_id (each_once named.now) values.now }
    {
        let mut rest = values;
        for id in named {
            let Ok(position) = position_of(ids, *id) else {
                continue;
            };
            if own[position].is_none() {
                let Some((value, after)) = rest.split_first() else {
                    return false;
                };
                own[position] = Some(*value);
                rest = after;
            }
        }
        rest.is_empty()
    }

    /// The value of the id, if it is known. An id that the command does not name has none.
    fn value_of(&self, id: u64) -> Option<V>
        ensures { result ≡ finite.get (map_of self.now) id }
    {
        match position_of(self.ids.as_slice(), id) {
            Ok(position) => match self.values.get(position) {
                Some(value) => value.unwrap_or(None),
                None => None,
            },
            Err(_) => None,
        }
    }
}

// The position of the id in an ascending list, or as an error the position at which it would be.
fn position_of(ids: &[u64], id: u64) -> Result<usize, usize>
    requires { IsAscending ids.now }
    ensures { MatchResult result (IsAtPosition ids.now id) (IsInsertionPoint ids.now id) }
{
    ids.binary_search(&id)
}

impl AckSource for ValuesById<u64> {
    ghost use Rattle.conf_session.specs.Quorum.{map_of};

    ghost acks = { map_of };

    fn acked(&self, id: u64) -> Option<u64> {
        self.value_of(id)
    }
}

impl VoteSource for ValuesById<bool> {
    ghost use Rattle.conf_session.specs.Quorum.{map_of};

    ghost votes = { map_of };

    fn voted(&self, id: u64) -> Option<bool> {
        self.value_of(id)
    }
}
