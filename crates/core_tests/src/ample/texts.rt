//! Changes that are parsed from tokens.
use conf_change::Kind::Learner;
use conf_change::{Change, TokenFault, read_change, read_changes_into};
use test_support::runtime::Runtime;

// Whether a text is refused for this reason, and leaves a list empty that had two changes.
fn is_left_empty(rt: &impl Runtime, text: &'static [u8], fault: TokenFault<'_>) -> bool {
    let mut list = Vec::new(rt.alloc());
    read_changes_into(&mut list, b"v1 l2").expect(rt, "changes");
    (list.len() == 2) & (read_changes_into(&mut list, text) == Err(fault)) & list.is_empty()
}

#[test]
fn a_fault_leaves_no_changes(rt: HostRuntime) {
    assert!(rt; is_left_empty(&rt, b"v3 x4 v5", TokenFault::UnknownInput(b"x4")));
}

// A token, and the change that it is read as, or why it is none.
static CHANGES: [(&[u8], Result<Change, TokenFault<'_>>); 4] = [
    (
        b"l007",
        Ok(Change {
            kind: Learner,
            id: 7,
        }),
    ),
    (b"v", Err(TokenFault::UnknownToken(b"v"))),
    (b"x1", Err(TokenFault::UnknownInput(b"x1"))),
    (b"v-1", Err(TokenFault::BadNumber(b"v-1"))),
];

#[test]
fn reads_the_change_of_a_token(rt: HostRuntime) {
    for (index, (token, expected)) in CHANGES.iter().enumerate() {
        assert!(rt; read_change(*token) == *expected, "row {index}");
    }
}
