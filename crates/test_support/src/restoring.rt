//! Saved configurations of lines, and changers that are restored from them.
ghost use Rattle.std.specs.Prelude.{◌≡◌, Some, true, IfOk};
ghost use Rattle.conf_change.specs.Changer.{begun_with};
ghost use Rattle.conf_change.specs.ConfStateLine.{conf_state_in};
ghost use Rattle.conf_change.specs.ConfState.{Describes};
ghost use Rattle.conf_change.specs.Configuration.{Configuration, is_restorable};

use crate::twice;
use conf_change::{Changer, ConfState, ConfStateFault, Floor, RestoreFault, read_conf_state};
use quorum_sets::MemberSet;
use std::alloc::Global;

/// Five voters.
pub const FIVE: &str =
    "Voters:[1 2 3 4 5] VotersOutgoing:[] Learners:[] LearnersNext:[] AutoLeave:false";

/// The saved configuration of a line.
pub fn read(alloc: Global, line: &str) -> Result<ConfState, ConfStateFault>
    ensures { IfOk result (λ state. conf_state_in line.now ≡ Some state) }
{
    twice!(
        ConfStateFault::NoMemory,
        read_conf_state(alloc, line.as_bytes())
    )
}

/// The changer with a saved configuration.
pub fn restored<S: MemberSet>(
    alloc: Global,
    state: &ConfState,
    floor: Floor,
) -> Result<Changer<S>, RestoreFault>
    ensures { (c : Configuration) → Describes state.now c → is_restorable c ≡ true →
        IfOk result (λ changer. changer ≡ begun_with floor 0 c) }
{
    twice!(
        RestoreFault::NoMemory,
        Changer::restore_with_floor(alloc, state, 0, floor)
    )
}

// The changer with a saved configuration, or an empty one.
fn restored_or_empty<S: MemberSet>(alloc: Global, state: &ConfState) -> Changer<S> {
    match restored(alloc, state, Floor::One) {
        Ok(changer) => changer,
        Err(_) => Changer::new(alloc, 0),
    }
}

/// The changer with the configuration of a line; an empty one if the line has none, so that its row fails without a
/// branch for it.
pub fn changer_at<S: MemberSet>(alloc: Global, line: &str) -> Changer<S> {
    match read(alloc, line) {
        Ok(state) => restored_or_empty(alloc, &state),
        Err(_) => Changer::new(alloc, 0),
    }
}
