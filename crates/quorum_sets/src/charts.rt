//! The chart of the acknowledged indexes, in the form of `MajorityConfig.Describe` of etcd's package `quorum`. It shows
//! at a glance how far each voter has come. If 1 and 2 have acknowledged 7 and 5, and nothing is known of 3:
//!
//! ```text
//!        idx
//! xx>      7    (id=1)
//! x>       5    (id=2)
//! ?        0    (id=3)
//! ```
ghost use Rattle.std.specs.Prelude.{◌≡◌, ◌<◌, ◌≤◌, ◌^◌, ◌++◌, ℕ, List, length, flat_map, IfOk, OnOk, OnErr};
ghost use Rattle.std.specs.List.{Contains};
ghost use Rattle.ascii_text.specs.Append.{Extends};
ghost use Rattle.quorum_sets.specs.Ids as spec;
ghost use Rattle.quorum_sets.specs.Ids.{ascending};
ghost use Rattle.quorum_sets.specs.Committed.{Acks, acked_index};
ghost use Rattle.quorum_sets.specs.Chart.{IsRanking, bar_text, bar_width, chart_row, chart_text, in_five_columns, row_text};

use crate::acknowledgement::AckSource;
use crate::lists::add_ids;
use crate::member_set::MemberSet;
use crate::unions::union;
use ascii_text::NoMemory;
use ascii_text::append::{append, append_number, append_times, undo_if_failed};
use itoa::Buffer;
use smallvec::SmallVec;
use std::alloc::Global;

/// Appends the chart of a set: a line for each id, in ascending order, with a bar and the index that it acknowledged.
/// The width of the bar is the number of ids with a smaller index, or 0 if a smaller id has the same index. An unknown
/// index counts as 0 and is drawn as `?`. The empty set has the text `<empty majority quorum>`, without a newline.
pub fn chart<S: MemberSet, A: AckSource>(
    text: &mut Vec<u8>,
    set: &S,
    acks: &A,
) -> Result<(), NoMemory>
    ensures ok { OnOk result (text.new.items
        ≡ text.old.items ++ chart_text (ascending (S.ids set.now)) (A.acks acks.now)) }
    ensures err { OnErr result (text.new.items ≡ text.old.items) }
{
    let mut ids = SmallVec::new(*text.allocator());
    add_ids(&mut ids, set)?;
    let len = text.len();
    let appended = append_chart(text, ids.as_slice(), acks);
    undo_if_failed(text, len, appended)
}

/// Appends the chart of the voters of a joint configuration, as [`chart`] does. An id in both sets has one line.
pub fn joint_chart<S: MemberSet, A: AckSource>(
    text: &mut Vec<u8>,
    incoming: &S,
    outgoing: &S,
    acks: &A,
) -> Result<(), NoMemory>
    ensures ok { OnOk result (text.new.items
        ≡ text.old.items
        ++ chart_text (ascending (spec.union (S.ids incoming.now) (S.ids outgoing.now)))
        (A.acks acks.now)) }
    ensures err { OnErr result (text.new.items ≡ text.old.items) }
{
    let both = union(incoming, outgoing)?;
    chart(text, &both, acks)
}

// Appends the chart of the ids.
fn append_chart<A: AckSource>(text: &mut Vec<u8>, ids: &[u64], acks: &A) -> Result<(), NoMemory>
    ensures ok { OnOk result
        (text.new.items ≡ text.old.items ++ chart_text ids.now (A.acks acks.now)) }
    ensures extends { Extends text.old.items text.new.items }
{
    if ids.is_empty() {
        return append(text, b"<empty majority quorum>");
    }
    let ranking = ranked(*text.allocator(), ids, acks)?;
    append_times(text, b' ', ids.len())?;
    append(text, b"    idx\n")?;
    append_rows(text, ids, acks, ranking.as_slice())
}

// The ids with the indexes that they acknowledged, sorted by index and then by id. The position of an id in this order
// is the width of its bar, unless the id before it has the same index.
fn ranked<A: AckSource>(alloc: Global, ids: &[u64], acks: &A) -> Result<Vec<(u64, u64)>, NoMemory>
    ensures { IfOk result (λ rows. IsRanking ids.now (A.acks acks.now) rows.items) }
{
    let mut rows = Vec::with_capacity(alloc, ids.len())?;
    for id in ids {
        rows.push((acks.acked(*id).unwrap_or(0), *id))?;
    }
    rows.as_mut_slice().sort_unstable();
    Ok(rows)
}

// Appends the line of each id.
fn append_rows<A: AckSource>(
    text: &mut Vec<u8>,
    ids: &[u64],
    acks: &A,
    ranking: &[(u64, u64)],
) -> Result<(), NoMemory>
    requires { IsRanking ids.now (A.acks acks.now) ranking.now }
    ensures ok { OnOk result (text.new.items
        ≡ text.old.items ++ flat_map (chart_row ids.now (A.acks acks.now)) ids.now) }
    ensures extends { Extends text.old.items text.new.items }
{
    for id in ids {
        let acked = acks.acked(*id);
        let width = width_of_bar(ranking, acked.unwrap_or(0), *id);
        append_row(text, ids.len(), *id, acked, width)?;
    }
    Ok(())
}

// The number of ids with an index below `index`, or 0 if an id smaller than `id` has the same index.
fn width_of_bar(ranking: &[(u64, u64)], index: u64, id: u64) -> usize
    ensures width { (ids : List ℕ) (acks : Acks) → IsRanking ids acks ranking.now → Contains ids id
        → index ≡ acked_index acks id → result ≡ bar_width ids acks id }
    ensures within { result ≤ length ranking.now }
{
    let position = ranking.partition_point(|row| row.0 < index);
    match ranking.get(position) {
        Some((_, first)) if *first == id => position,
        _ => 0,
    }
}

// Appends the line of one of `n` ids.
fn append_row(
    text: &mut Vec<u8>,
    n: usize,
    id: u64,
    acked: Option<u64>,
    width: usize,
) -> Result<(), NoMemory>
    requires small { n < 2 ^ 63 }
    requires within { width ≤ n }
    ensures ok { OnOk result (text.new.items ≡ text.old.items ++ row_text n id acked width) }
    ensures extends { Extends text.old.items text.new.items }
{
    append_bar(text, n, acked, width)?;
    append(text, b" ")?;
    append_in_five_columns(text, acked.unwrap_or(0))?;
    append(text, b"    (id=")?;
    append_number(text, id)?;
    append(text, b")\n")
}

// Appends the bar of one of `n` ids, or `?` if its index is unknown.
fn append_bar(
    text: &mut Vec<u8>,
    n: usize,
    acked: Option<u64>,
    width: usize,
) -> Result<(), NoMemory>
    requires small { n < 2 ^ 63 }
    requires within { width ≤ n }
    ensures ok { OnOk result (text.new.items ≡ text.old.items ++ bar_text n acked width) }
    ensures extends { Extends text.old.items text.new.items }
{
    let (mark, bars): (&[u8], usize) = match acked {
        Some(_) => (b">", width),
        None => (b"?", 0),
    };
    append_times(text, b'x', bars)?;
    append(text, mark)?;
    append_times(text, b' ', n - bars)
}

// Appends a number, right-aligned in five columns; a number of more digits takes as many columns as it has digits.
fn append_in_five_columns(text: &mut Vec<u8>, number: u64) -> Result<(), NoMemory>
    ensures ok { OnOk result (text.new.items ≡ text.old.items ++ in_five_columns number) }
    ensures extends { Extends text.old.items text.new.items }
{
    let mut buffer = Buffer::new();
    let digits = buffer.format(number).as_bytes();
    append_times(text, b' ', 5usize.saturating_sub(digits.len()))?;
    append(text, digits)
}
