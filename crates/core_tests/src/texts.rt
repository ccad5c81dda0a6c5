//! Appending to texts, and reading changes.
use ascii_text::append::append_number;
use conf_change::Kind::{Learner, Remove, Update, Voter};
use conf_change::{Change, TokenFault, read_changes, read_changes_into};
use quorum_sets::NoMemory;
use std::alloc::Global;
use test_support::{appends, twice};

static NUMBERS: [(u64, &str); 4] = [
    (0, "0"),
    (9, "9"),
    (10, "10"),
    (u64::MAX, "18446744073709551615"),
];

fn with_number(text: &mut Vec<u8>, number: u64) -> Result<(), NoMemory> {
    append_number(text, number)?;
    Ok(())
}

fn is_printed(alloc: Global, number: u64, expected: &str) -> bool {
    appends!(alloc, expected, |text| with_number(text, number))
}

#[test]
fn appends_numbers(rt: HostRuntime) {
    for (number, text) in &NUMBERS {
        assert!(rt; is_printed(rt.alloc(), *number, *text), "{text}");
    }
}

// Tokens between any white space, and the changes that they are parsed as.
static CHANGES: [(&[u8], &[Change]); 5] = [
    (b"", &[]),
    (b" \t\n\x0b\x0c\r", &[]),
    (
        b"v00000000000000000000000000000001",
        &[Change { kind: Voter, id: 1 }],
    ),
    (
        b"\r\nv1\r\nl02 r0\x0bu7\r\n",
        &[
            Change { kind: Voter, id: 1 },
            Change {
                kind: Learner,
                id: 2,
            },
            Change {
                kind: Remove,
                id: 0,
            },
            Change {
                kind: Update,
                id: 7,
            },
        ],
    ),
    (
        b"v18446744073709551615",
        &[Change {
            kind: Voter,
            id: u64::MAX,
        }],
    ),
];

// Whether the changes of a text are read into a new list.
fn are_read(alloc: Global, text: &'static [u8], expected: &[Change]) -> bool {
    match twice!(TokenFault::NoMemory, read_changes(alloc, text)) {
        Ok(changes) => changes.as_slice() == expected,
        Err(_) => false,
    }
}

// Whether the changes of a text replace those in a list; on `NoMemory` the list is left empty.
fn are_read_into(list: &mut Vec<Change>, text: &'static [u8], expected: &[Change]) -> bool {
    let mut answer = read_changes_into(list, text);
    let mut is_left_empty = true;
    if answer == Err(TokenFault::NoMemory) {
        is_left_empty = list.is_empty();
        answer = read_changes_into(list, text);
    }
    is_left_empty & answer.is_ok() & (list.as_slice() == expected)
}

fn are_read_again(alloc: Global, text: &'static [u8], expected: &[Change]) -> bool {
    match twice!(TokenFault::NoMemory, read_changes(alloc, b"v7 l8")) {
        Ok(mut list) => are_read_into(&mut list, text, expected),
        Err(_) => false,
    }
}

#[test]
fn reads_lists_of_changes(rt: HostRuntime) {
    for (index, (text, expected)) in CHANGES.iter().enumerate() {
        assert!(rt;
            are_read(rt.alloc(), *text, *expected) & are_read_again(rt.alloc(), *text, *expected),
            "row {index}"
        );
    }
}
