//! How a plan is made, and how its text is written, by the numbers that a caller passes:
//!
//! ```text
//! strategy 1, output 2, down 4 5   ->   learners first, JSON lines, made and reported for 4 and 5 down
//! ```
ghost use Rattle.std.specs.Prelude.{◌≡◌, ◌⊎◌, Ok, Err, IfOk, IfErr};
ghost use Rattle.confscript_c.specs.Answer.{no_memory};
ghost use Rattle.confscript_c.specs.Request as spec;

use crate::answer::Answer;
use crate::status::Status;
use conf_plan::Strategy;
use plan_output::Output;
use quorum_sets::{InlineIds, MemberSet};
use std::alloc::Global;

/// How a plan is made.
#[derive(Drop)]
pub struct Request {
    pub strategy: Strategy,
    /// The ids that are down, if any are given.
    pub down: Option<InlineIds>,
}

/// The request of the code of a strategy, and the ids that are down. They are looked at in this order.
pub(crate) fn request_in(alloc: Global, strategy: u32, down: &[u64]) -> Result<Request, Answer>
    ensures request { IfOk result (λ request. spec.request_in strategy down.now ≡ Ok request) }
    ensures refused { IfErr result (λ why. (why ≡ no_memory) ⊎ (spec.request_in strategy down.now
        ≡ Err why)) }
{
    Ok(Request {
        strategy: strategy_at(strategy)?,
        down: down_in(alloc, down)?,
    })
}

/// The request of the code of a strategy and the ids that are down, and the output of a code. The output is looked at
/// after the strategy, and before the ids.
pub(crate) fn text_request_in(
    alloc: Global,
    strategy: u32,
    output: u32,
    down: &[u64],
) -> Result<(Request, Output), Answer>
    ensures request { IfOk result (λ asked. spec.text_request_in strategy output down.now
        ≡ Ok asked) }
    ensures refused { IfErr result (λ why. (why ≡ no_memory)
        ⊎ (spec.text_request_in strategy output down.now ≡ Err why)) }
{
    let strategy = strategy_at(strategy)?;
    let output = output_at(output)?;
    let down = down_in(alloc, down)?;
    Ok((Request { strategy, down }, output))
}

// The strategy with this code in `enum confscript_strategy`.
fn strategy_at(code: u32) -> Result<Strategy, Answer>
    ensures { result ≡ spec.strategy_at code }
{
    match code {
        0 => Ok(Strategy::Shortest),
        1 => Ok(Strategy::LearnersFirst),
        2 => Ok(Strategy::OneAtATime),
        _ => Err(Answer::new(Status::BadStrategy, 0)),
    }
}

// The output with this code in `enum confscript_output`.
fn output_at(code: u32) -> Result<Output, Answer>
    ensures { result ≡ spec.output_at code }
{
    match code {
        0 => Ok(Output::Steps),
        1 => Ok(Output::Table),
        2 => Ok(Output::Json),
        _ => Err(Answer::new(Status::BadOutput, 0)),
    }
}

// The ids that are down, if there are any. 0 is not an id.
fn down_in(alloc: Global, ids: &[u64]) -> Result<Option<InlineIds>, Answer>
    ensures down { IfOk result (λ down. spec.down_in ids.now ≡ Ok down) }
    ensures refused { IfErr result (λ why. (why ≡ no_memory) ⊎ (spec.down_in ids.now ≡ Err why)) }
{
    if ids.is_empty() {
        return Ok(None);
    }
    let down = InlineIds::of_list(alloc, ids)?;
    if down.contains(0) {
        return Err(Answer::new(Status::ZeroId, 0));
    }
    Ok(Some(down))
}
