//! Ids that are down and are not members. They are a user's mistake, such as a digit that was mistyped.
ghost use Rattle.std.specs.Prelude.{◌≡◌, option_copied};
ghost use Rattle.plan_input.specs.Nonmember.{first_nonmember};

use conf_change::Config;
use quorum_sets::InlineIds;

/// The least of the ids that are down, if any are given, that is a member of neither configuration: no voter of either
/// kind, and no learner. A next learner of a valid configuration is an outgoing voter.
pub fn first_nonmember(
    down: Option<&InlineIds>,
    now: &Config<InlineIds>,
    target: &Config<InlineIds>,
) -> Option<u64>
    ensures { result ≡ first_nonmember (option_copied down.entry) now.now target.now }
{
    match down {
        Some(down) => {
            let mut ids = down.as_slice().iter().copied();
            ids.find(|id| !now.is_member(*id) && !target.is_member(*id))
        }
        None => None,
    }
}
