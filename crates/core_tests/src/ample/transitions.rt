//! The kind of step that each transition makes of a list of changes.
use conf_change::{Change, Kind, StepKind, Transition, taken};

const VOTER: Change = Change {
    kind: Kind::Voter,
    id: 1,
};

const IGNORED: Change = Change {
    kind: Kind::Voter,
    id: 0,
};

const UPDATE: Change = Change {
    kind: Kind::Update,
    id: 1,
};

// Lists of changes, and the kind of step that `Auto` makes of each.
static LISTS: [(&[Change], StepKind); 5] = [
    (&[], StepKind::Leave),
    (&[VOTER], StepKind::Simple),
    (&[IGNORED], StepKind::Simple),
    (&[VOTER, UPDATE], StepKind::Enter(true)),
    (&[VOTER, VOTER], StepKind::Enter(true)),
];

#[test]
fn each_change_of_a_list_counts(rt: HostRuntime) {
    for (index, (changes, by_itself)) in LISTS.iter().enumerate() {
        let is_so = (taken(Transition::Auto, *changes) == *by_itself)
            & (taken(Transition::Implicit, *changes) == StepKind::Enter(true))
            & (taken(Transition::Explicit, *changes) == StepKind::Enter(false));
        assert!(rt; is_so, "row {index}");
    }
}
