//! What is printed of a changer.
use crate::appends;
use conf_change::{Changer, Config, Progress, write_config, write_progress};
use quorum_sets::MemberSet;
use std::alloc::Global;

/// The text of a configuration, and those of its members' progress in ascending order.
pub type Shown = (&'static str, &'static [&'static str]);

/// The texts of ten new members.
pub const TEN: &[&str] = &[
    "1: StateProbe match=0 next=1",
    "2: StateProbe match=0 next=1",
    "3: StateProbe match=0 next=1",
    "4: StateProbe match=0 next=1",
    "5: StateProbe match=0 next=1",
    "6: StateProbe match=0 next=1",
    "7: StateProbe match=0 next=1",
    "8: StateProbe match=0 next=1",
    "9: StateProbe match=0 next=1",
    "10: StateProbe match=0 next=1",
];

fn has_text<S: MemberSet>(alloc: Global, config: &Config<S>, expected: &str) -> bool {
    appends!(alloc, expected, |text| write_config(text, config))
}

fn is_member(alloc: Global, id: u64, progress: Progress, expected: &str) -> bool {
    appends!(alloc, expected, |text| write_progress(text, id, progress))
}

/// Whether a changer is printed as this text.
pub fn is_shown<S: MemberSet>(alloc: Global, changer: &Changer<S>, shown: Shown) -> bool {
    let tracker = changer.tracker();
    let (config, members) = shown;
    let mut is_so = has_text(alloc, tracker.config(), config)
        & (tracker.member_count() == members.len());
    for (index, member) in members.iter().enumerate() {
        is_so &= match tracker.member_at(index) {
            Some((id, progress)) => is_member(alloc, id, progress, *member),
            None => false,
        };
    }
    is_so
}
