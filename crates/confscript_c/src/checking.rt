//! What is wrong with a configuration, by the invariants of etcd's `confchange`:
//!
//! ```text
//! Voters:[1 2] VotersOutgoing:[] Learners:[2] LearnersNext:[] AutoLeave:false    2 is a voter and a learner
//! ```
ghost use Rattle.std.specs.Prelude.{◌≡◌, ◌⊎◌};
ghost use Rattle.confscript_c.specs.Answer.{no_memory};
ghost use Rattle.confscript_c.specs.Checked.{check_answer};

use crate::answer::Answer;
use crate::numbers::fault_answer;
use crate::status::Status;
use conf_change::{Config, ConfigurationFault, read_configuration};
use quorum_sets::InlineIds;
use std::alloc::Global;

/// Reports what is wrong with the configuration of a ConfState line: an id that one of its lists names twice, or else the
/// first broken invariant, in the order of the statuses. The number is the id that is listed twice, or the least one
/// that breaks the invariant, if the invariant is about ids. The call is done if nothing is wrong, even if there is no
/// voter. It is refused if the text is not a ConfState line (etcd's `confchange`; `ZeroId` and `NextAndIncoming` are own).
#[unsafe(no_mangle)]
pub extern "C" fn confscript_check(alloc: Global, state: &[u8]) -> Answer
    ensures { (result ≡ no_memory) ⊎ (result ≡ check_answer state.now) }
{
    let read: Result<Config<InlineIds>, ConfigurationFault> = read_configuration(alloc, state);
    match read {
        Ok(_) => Answer::done(0),
        Err(fault) => fault_answer(fault, Answer::new(Status::BadConfState, 1)),
    }
}
