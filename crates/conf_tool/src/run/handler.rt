//! The loop of all modes: the input is read part by part, a line or an item of a script at a time. A mode makes the
//! reply to each part as a text, and the loop writes it before more input is waited for.
//!
//! ```text
//! input         part 1    part 2    part 3    the end, or an error
//! output        reply 1   reply 2   reply 3   reply to the end
//! ```
//!
//! The output of a mode is defined for a whole input (`specs/Outputs.antt`), but a run knows only the parts so far. So
//! each mode states what is left of its output by its state ([`Handler`]'s `left`): a reply is what was left before the
//! part and is not left after it. Then what is written at any time is a prefix of the output, whatever input follows.
ghost use Rattle.std.specs.Prelude.{◌≡◌, ◌<◌, ◌+◌, ◌^◌, ◌||◌, ℕ, List, [], ◌∷◌, ◌++◌, Option, Err, true, false, IsOkUnless, OnOk, IfErr, IfOk, IfSome};
ghost use Rattle.dd_file.specs.Device.{LosesPrefix};
ghost use Rattle.dd_file.specs.Position.{Position, longest_input, start};
ghost use Rattle.dd_file.specs.Grammar.{Script as ScriptOf, next_of, script_from};
ghost use Rattle.dd_file.specs.declared.fault.FileFault.{FileFault as ReadFault};
ghost use Rattle.conf_tool.specs.Answered.{InTurn, script, prepended, with_prefix, WrotePrefix};
ghost use Rattle.conf_tool.specs.Outputs.{Output, ends, output};
ghost use Rattle.conf_tool.specs.Run.{Answers, Means, CanAnswer, CanBeFaulty, IsStop, as_tool_fault, is_read_failure, is_write_failure, is_whole_output};
ghost use Rattle.conf_tool.specs.Ranges.{IsInRange};
ghost use Rattle.conf_tool.specs.declared.mode.Mode.{Mode as ModeName};
ghost use Rattle.conf_tool.specs.declared.options.Options.{Options as GivenOptions};
ghost use Rattle.conf_tool.specs.declared.tool_fault.ToolFault.TheVariants.{NoMemory as OutOfMemory};

use crate::options::Options;
use crate::status::Status;
use crate::tool_fault::ToolFault;
use dd_file::device::{Sink, Source};
use dd_file::draft::Draft;
use dd_file::fault::FileFault;
use dd_file::read_ahead::Parts;
use dd_file::writing::write_all;
use quorum_sets::NoMemory;
use std::alloc::Global;

/// How a run ends whose whole output is written: with a status, or with an error in the input.
pub(super) type Outcome = Result<Status, ToolFault>;

/// A mode: the state that it keeps between parts, and its replies. An error ends the run.
pub(super) trait Handler<P> {
    /// The name of the mode, which decides its statuses and its errors.
    ghost mode: { ModeName };

    /// The output, for all parts of the input.
    ghost whole: { GivenOptions → ScriptOf P → Output };

    /// What is left of the output, for the parts that are left of the input.
    ghost left: { Self → ScriptOf P → Output };

    /// The mode has replied to this many parts.
    ghost HasAnswered: { Self → ℕ → Type 0 };

    /// The mode before the first part. It fails only if memory runs out.
    fn new(alloc: Global, options: Options) -> Result<Self, ToolFault>
        requires { IsInRange options }
        ensures unanswered { IfOk result (λ mode. HasAnswered mode 0) }
        ensures all { IfOk result (λ mode. (rest : ScriptOf P) → left mode rest ≡ whole options rest) }
        ensures memory { IsOkUnless result OutOfMemory };

    /// Makes the reply to a part, in an empty text. There are fewer than 2^30 parts, since an input has fewer bytes.
    fn answer(&mut self, part: &P, text: &mut Vec<u8>) -> Result<(), ToolFault>
        requires few { (count : ℕ) × HasAnswered self.old count × (count < 2 ^ 30) }
        requires empty { text.old.items ≡ [] }
        ensures answered { OnOk result ((count : ℕ) → HasAnswered self.old count
            → HasAnswered self.new (count + 1)) }
        ensures text { OnOk result ((rest : ScriptOf P)
            → left self.old (prepended (part.now ∷ []) rest)
            ≡ with_prefix text.new.items (left self.new rest)) }
        ensures stop { IfErr result (λ stop. IsStop mode stop ((rest : ScriptOf P)
            → left self.old (prepended (part.now ∷ []) rest) ≡ ends (Err stop))) };

    /// Makes the reply to the end of the input, or to the error in it, in an empty text. Returns how the run ends.
    fn end(&mut self, fault: Option<FileFault>, text: &mut Vec<u8>) -> Result<Outcome, NoMemory>
        requires few { (count : ℕ) × HasAnswered self.old count }
        requires empty { text.old.items ≡ [] }
        ensures output { IfOk result (λ outcome. left self.old (script [] fault)
            ≡ output text.new.items outcome) }
        ensures whole { IfOk result (λ outcome. is_whole_output outcome ≡ true) }
        ensures kinds { IfSome fault (CanBeFaulty mode) → IfOk result (CanAnswer mode) };
}

// Makes the reply to a part, and writes it.
#[inline(always)]
fn reply<P, M: Handler<P>, W: Sink>(
    mode: &mut M,
    part: &P,
    text: &mut Vec<u8>,
    writer: &mut W,
) -> Result<(), ToolFault>
    requires { (count : ℕ) × M.HasAnswered mode.old count × (count < 2 ^ 30) }
    ensures answered { OnOk result ((count : ℕ) → M.HasAnswered mode.old count
        → M.HasAnswered mode.new (count + 1)) }
    ensures wrote { OnOk result ((total : ScriptOf P → Output) (parts : List P)
        (before : Option (List ℕ)) →
        WrotePrefix total (M.left mode.old) parts before (W.contents writer.old)
        → WrotePrefix total (M.left mode.new) (parts ++ part.now ∷ []) before
        (W.contents writer.new)) }
    ensures stop { IfErr result (λ stop. (total : ScriptOf P → Output) (parts : List P)
        (before : Option (List ℕ)) →
        WrotePrefix total (M.left mode.old) parts before (W.contents writer.old) → (rest : ScriptOf P) →
        Means (total (prepended parts (prepended (part.now ∷ []) rest))) (Err stop) before
        (W.contents writer.new)) }
    ensures read { is_read_failure result ≡ false }
    ensures write { W.has_failed writer.new ≡ (W.has_failed writer.old || is_write_failure result) }
    ensures kinds { IfErr result (λ stop. CanAnswer M.mode (Err stop)) }
{
    text.clear();
    mode.answer(part, text)?;
    write_all(writer, text.as_slice())?;
    Ok(())
}

// Makes the reply to the end of the input, or to the error in it, writes it, and ends the run.
fn finish<P, M: Handler<P>, W: Sink>(
    mode: &mut M,
    fault: Option<FileFault>,
    text: &mut Vec<u8>,
    writer: &mut W,
) -> Result<Status, ToolFault>
    requires { (count : ℕ) × M.HasAnswered mode.old count }
    ensures output { (total : ScriptOf P → Output) (parts : List P) (before : Option (List ℕ)) →
        WrotePrefix total (M.left mode.old) parts before (W.contents writer.old)
        → Means (total (script parts fault)) result before (W.contents writer.new) }
    ensures read { is_read_failure result ≡ false }
    ensures write { W.has_failed writer.new ≡ (W.has_failed writer.old || is_write_failure result) }
    ensures kinds { IfSome fault (CanBeFaulty M.mode) → CanAnswer M.mode result }
{
    text.clear();
    let outcome = mode.end(fault, text)?;
    write_all(writer, text.as_slice())?;
    outcome
}

/// Runs a mode over an input, to its end or to an error. The mode replies to an error in the input; after a failed
/// read, a failed write or `NoMemory` nothing more is written.
pub(super) fn run_by_part<D: Draft + Drop, M: Handler<D::Part> + Drop, R: Source, W: Sink>(
    alloc: Global,
    options: Options,
    reader: &mut R,
    writer: &mut W,
) -> Result<Status, ToolFault>
    requires range { IsInRange options }
    requires in_turn { InTurn (next_of D.first_item D.numbered longest_input) }
    requires faults { (position : Position) (fault : ReadFault) → D.IsFault position fault
        → CanAnswer M.mode (Err (as_tool_fault fault)) }
    ensures output { Answers (λ input. M.whole options
        (script_from (next_of D.first_item D.numbered longest_input) start input))
        (R.remaining reader.old) (R.remaining reader.new) (W.contents writer.old)
        (W.contents writer.new) result }
    ensures consumed { LosesPrefix (R.remaining reader.old) (R.remaining reader.new) }
    ensures read { R.has_failed reader.new ≡ (R.has_failed reader.old || is_read_failure result) }
    ensures write { W.has_failed writer.new ≡ (W.has_failed writer.old || is_write_failure result) }
    // Any read may fail, so a run reads only once its replies are flushed.
    ensures asks { is_read_failure result ≡ true → W.IsFlushed writer.new }
    ensures kinds { CanAnswer M.mode result }
{
    let mut mode = M::new(alloc, options)?;
    let mut parts = Parts::<D>::new(alloc)?;
    let mut text = Vec::new(alloc);
    'each: loop {
        let read = parts.next_after_flush(reader, writer)?;
        match read {
            Ok(Some(part)) => {
                reply(&mut mode, part, &mut text, writer)?;
            }
            Ok(None) => return finish(&mut mode, None, &mut text, writer),
            Err(fault) => match ToolFault::from(fault) {
                ToolFault::Script(fault) => {
                    return finish(&mut mode, Some(fault), &mut text, writer);
                }
                fault => return Err(fault),
            },
        }
    }
}
