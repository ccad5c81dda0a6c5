//! The notes that paths stall.
use crate::assertions::holds_at;
use crate::paths::{THREE, TWO_OF_FIVE, config_at, ids, path_between};
use conf_change::Config;
use conf_plan::{Path, Strategy};
use plan_output::stall_note;
use quorum_sets::{InlineIds, NoMemory};
use std::alloc::Global;
use test_support::restoring::FIVE;
use test_support::twice;

// The current configuration, the target, the ids that are down, and the note of the shortest path, if it stalls.
type Row = (
    &'static str,
    &'static str,
    &'static [u64],
    Option<&'static str>,
);

static ROWS: [Row; 7] = [
    (FIVE, TWO_OF_FIVE, &[], None),
    (FIVE, TWO_OF_FIVE, &[4], Some("stalls with 4 down")),
    (
        FIVE,
        TWO_OF_FIVE,
        &[10, 4, 5],
        Some("stalls with 4 5 10 down"),
    ),
    (
        FIVE,
        TWO_OF_FIVE,
        &[3, 4, 5],
        Some("no quorum with 3 4 5 down: no step can be made"),
    ),
    (
        THREE,
        THREE,
        &[3, 2],
        Some("no quorum with 2 3 down: no step can be made"),
    ),
    // Each of two sets of voters is asked.
    (
        "Voters:[1] VotersOutgoing:[2] Learners:[] LearnersNext:[] AutoLeave:false",
        "Voters:[1] VotersOutgoing:[] Learners:[] LearnersNext:[] AutoLeave:false",
        &[2],
        Some("no quorum with 2 down: no step can be made"),
    ),
    (
        "Voters:[1] VotersOutgoing:[2] Learners:[] LearnersNext:[] AutoLeave:false",
        "Voters:[2] VotersOutgoing:[] Learners:[] LearnersNext:[] AutoLeave:false",
        &[1],
        Some("no quorum with 1 down: no step can be made"),
    ),
];

fn is_note(note: Option<&Vec<u8>>, expected: Option<&str>) -> bool {
    match (note, expected) {
        (Some(note), Some(expected)) => note.as_slice() == expected.as_bytes(),
        (None, None) => true,
        _ => false,
    }
}

// Whether the shortest path from a configuration has this note, or none.
fn has_note(
    alloc: Global,
    now: &Config<InlineIds>,
    path: &Path,
    down: &InlineIds,
    expected: Option<&str>,
) -> bool {
    match twice!(NoMemory, stall_note(alloc, now, path, Some(down))) {
        Ok(note) => is_note(note.as_ref(), expected),
        Err(_) => false,
    }
}

fn is_row_from(
    alloc: Global,
    row: &Row,
    now: &Config<InlineIds>,
    target: &Config<InlineIds>,
    down: &InlineIds,
) -> bool {
    match path_between(alloc, Strategy::Shortest, now, target, down) {
        Some(path) => has_note(alloc, now, &path, down, row.3),
        None => false,
    }
}

fn is_row(alloc: Global, row: &Row) -> bool {
    let now = config_at(alloc, row.0);
    let target = config_at(alloc, row.1);
    let down = ids(alloc, row.2);
    is_row_from(alloc, row, &now, &target, &down)
}

#[test]
fn notes_that_paths_stall(rt: HostRuntime) {
    for (index, row) in ROWS.iter().enumerate() {
        holds_at(&rt, index, is_row(rt.alloc(), row));
    }
}
