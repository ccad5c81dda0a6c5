//! The plan from one configuration to another, by a strategy, as one of the program's outputs. Of the plans from
//! `(1 2 3)` to `(1 2 4)`, written as steps, these are two:
//!
//! ```text
//! 0 shortest                           1 learners first
//! enter-joint autoleave=false r3 v4    simple l4
//! leave-joint                          enter-joint autoleave=false r3 v4
//!                                      leave-joint
//! ```
ghost use Rattle.std.specs.Prelude.{◌≡◌, ◌≢◌, ◌⊎◌, ℕ, List, Ok, Err, IfOk, IfErr};
ghost use Rattle.conf_plan.specs.PlanCode.{path_in};
ghost use Rattle.conf_plan.specs.PlanText.{plan_text};
ghost use Rattle.plan_output.specs.Output.{text_as};
ghost use Rattle.confscript_c.specs.Answer.{no_memory};
ghost use Rattle.confscript_c.specs.Planning.{plan_result, LeadsToTarget};
ghost use Rattle.confscript_c.specs.Written.{Writes};

use crate::answer::Answer;
use crate::buffer::write_out;
use crate::paths::path_between;
use crate::plan_texts::pair_in;
use crate::request::{Request, text_request_in};
use conf_change::Config;
use conf_change::laws::{restored_is_described, valid_is_described};
use conf_plan::Path;
use plan_output::{Output, add_path};
use quorum_sets::{InlineIds, NoMemory};
use std::alloc::Global;

/// Writes the plan from the configuration of one text to the target of another, in the forms that the program reads, by
/// a strategy: 0 for the shortest, 1 for learners first, 2 for one at a time. The output is 0 for steps, 1 for a table,
/// and 2 for JSON lines. The plan is made for the ids that are down, if there are any. The number is the length of the
/// text in bytes. The call is refused if the strategy or the output is unknown, if an id that is down is 0 or a member of
/// neither configuration, if a text does not denote a valid configuration with an incoming voter, or if the strategy has
/// no plan (sections 4.2.1 and 4.3 of Ongaro's dissertation; the strategies and the outputs are own).
#[unsafe(no_mangle)]
pub extern "C" fn confscript_plan(
    alloc: Global,
    now: &[u8],
    target: &[u8],
    strategy: u32,
    output: u32,
    down: &[u64],
    out: &mut [u8],
) -> Answer
    ensures writes { Writes (plan_result strategy output down.now now.now target.now) out.old result
        out.new }

    // The plan leads to the target, and keeps what the strategy promises.
    ensures leads { result ≢ no_memory → (text : List ℕ)
        → plan_result strategy output down.now now.now target.now ≡ Ok text
        → LeadsToTarget strategy output down.now now.now target.now text }
{
    match plan_between(alloc, now, target, strategy, output, down) {
        Ok(text) => write_out(text.as_slice(), out),
        Err(why) => why,
    }
}

// The text of the plan. The strategy is looked at first, then the output, the ids that are down, the texts, and whether
// the ids that are down are members.
fn plan_between(
    alloc: Global,
    now: &[u8],
    target: &[u8],
    strategy: u32,
    output: u32,
    down: &[u64],
) -> Result<Vec<u8>, Answer>
    ensures text { IfOk result (λ text. plan_result strategy output down.now now.now target.now
        ≡ Ok text.items) }
    ensures leads { IfOk result (λ text. LeadsToTarget strategy output down.now now.now target.now
        text.items) }
    ensures refused { IfErr result (λ why. (why ≡ no_memory)
        ⊎ (plan_result strategy output down.now now.now target.now ≡ Err why)) }
{
    let (request, output) = text_request_in(alloc, strategy, output, down)?;
    let (now, target) = pair_in(alloc, now, target)?;
    let path = path_between(alloc, &request, &now, &target)?;
    valid_is_described();
    restored_is_described();
    Ok(path_text(alloc, &request, output, &now, &path)?)
}

// The text of a path in this output, as the program prints it for its first pair.
fn path_text(
    alloc: Global,
    request: &Request,
    output: Output,
    now: &Config<InlineIds>,
    path: &Path,
) -> Result<Vec<u8>, NoMemory>
    ensures text { IfOk result (λ text. text.items ≡ text_as output 1 request.now.down now.now
        path.now) }
    ensures reads_back { IfOk result (λ _. output ≡ Output.Steps → path_in (plan_text path.now)
        ≡ Ok path.now) }
{
    let mut text = Vec::new(alloc);
    let down = request.down.as_ref();
    add_path(alloc, &mut text, output, 1, now, path, down)?;
    Ok(text)
}
