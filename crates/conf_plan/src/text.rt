//! The text of a path: a line for each step, or `nothing to do`. A line is the command of the step, as in a script, and
//! then its changes. The form is own:
//!
//! ```text
//! simple l4 l5
//! enter-joint autoleave=false r1 r2 v4 v5
//! leave-joint
//! ```
//!
//! What names no source here is own.
ghost use Rattle.std.specs.Prelude.{◌≡◌, ◌⊎◌, ◌++◌, Ok, Err, map, flat_map, IfOk, OnOk, OnErr};
ghost use Rattle.std.specs.List.{join_with_byte};
ghost use Rattle.ascii_text.specs.Lines.{full_lines};
ghost use Rattle.ascii_text.specs.Tokens.{tokens_in};
ghost use Rattle.conf_change.specs.ChangeList.{letter_of};
ghost use Rattle.conf_change.specs.Text.{Extends};
ghost use Rattle.conf_plan.specs.PlanText.{ParsesToPath, ParsesToPlan, command_tokens, change_text, spaced_change, line_and_newline, plan_text};
ghost use Rattle.conf_plan.specs.PlanCode as code;
ghost use Rattle.conf_plan.specs.PlanCode.{path_in, plan_in, step_in, enter_in, list_in};
ghost use Rattle.conf_plan.specs.declared.text.PlanTextFault.{PlanTextFault};

use crate::path::Path;
use crate::step_list::Plan;
use ascii_text::append::append_number;
use ascii_text::lines::next_full_line;
use ascii_text::tokens::next_token;
use conf_change::{Change, Changes, Kind, Step, TokenFault, read_changes};
use quorum_sets::NoMemory;
use std::alloc::{AllocFailed, Global};
use thiserror::Error;

/// Why a text is not parsed as a path, or not as a plan.
#[derive(Clone, Copy, Debug, PartialEq, Eq, Error)]
pub enum PlanTextFault {
    /// The line with this number, counted from 1, is the first that is not parsed as a step.
    #[error("line {0}: bad line")]
    BadLine(usize),
    /// A plan has a fifth line, after four steps.
    #[error("too many steps")]
    TooManySteps,
    /// An allocation failed.
    #[error("out of memory")]
    NoMemory,
}

impl From<NoMemory> for PlanTextFault {
    ghost use Rattle.conf_plan.specs.declared.text.PlanTextFault.TheVariants.{NoMemory};

    ghost from_gives = { λ _ fault. fault ≡ NoMemory };

    fn from(_error: NoMemory) -> PlanTextFault {
        PlanTextFault::NoMemory
    }
}

impl From<AllocFailed<Step>> for PlanTextFault {
    ghost use Rattle.conf_plan.specs.declared.text.PlanTextFault.TheVariants.{NoMemory};

    ghost from_gives = { λ _ fault. fault ≡ NoMemory };

    fn from(_error: AllocFailed<Step>) -> PlanTextFault {
        PlanTextFault::NoMemory
    }
}

/// Appends the lines of a plan, each with a newline: `simple v1 r2`, `enter-joint autoleave=false l3`, `leave-joint`,
/// or `nothing to do` if it has no step. [`read_plan`] reads it back as the same plan.
pub fn print_plan(text: &mut Vec<u8>, plan: &Plan) -> Result<(), NoMemory>
    ensures ok { OnOk result (text.new.items ≡ text.old.items ++ plan_text plan.now) }
    ensures denotes { ParsesToPlan (plan_text plan.now) plan.now }
    ensures reads_back { plan_in (plan_text plan.now) ≡ Ok plan.now }
    ensures err { OnErr result (text.new.items ≡ text.old.items) }
{
    print_path(text, plan)
}

/// Appends the lines of a path, in the form of [`print_plan`]. [`read_path`] reads it back as the same path.
#[tactic(auto, using(crate::proofs::PlanText::PrintedPlan::printed_laws))]
pub fn print_path(text: &mut Vec<u8>, path: &Path) -> Result<(), NoMemory>
    ensures ok { OnOk result (text.new.items ≡ text.old.items ++ plan_text path.now) }
    ensures denotes { ParsesToPath (plan_text path.now) path.now }
    ensures reads_back { path_in (plan_text path.now) ≡ Ok path.now }
    ensures err { OnErr result (text.new.items ≡ text.old.items) }
{
    let len = text.len();
    let printed = append_plan(text, path.as_slice());
    if printed.is_err() {
        text.truncate(len);
    }
    printed
}

// Appends a line for each step, or `nothing to do`.
fn append_plan(text: &mut Vec<u8>, steps: &[Step]) -> Result<(), NoMemory>
    ensures ok { OnOk result (text.new.items ≡ text.old.items ++ plan_text steps.now) }
    ensures extends { Extends text.old.items text.new.items }
{
    if steps.is_empty() {
        text.extend_from_slice(b"nothing to do\n")?;
        return Ok(());
    }
    for step in steps {
        append_line(text, step)?;
    }
    Ok(())
}

// Appends the line of a step: its command, and each of its changes after a space.
fn append_line(text: &mut Vec<u8>, step: &Step) -> Result<(), NoMemory>
    ensures ok { OnOk result (text.new.items ≡ text.old.items ++ line_and_newline step.now) }
    ensures extends { Extends text.old.items text.new.items }
{
    text.extend_from_slice(command_text(step))?;
    append_changes(text, step.changes())?;
    text.push(b'\n')?;
    Ok(())
}

/// The command of a step's line, with its flag: `simple`, `enter-joint autoleave=true`, `enter-joint autoleave=false`
/// or `leave-joint`.
pub fn command_text(step: &Step) -> &'static [u8]
    ensures { result.now ≡ join_with_byte 32 (command_tokens step.now) }
{
    match step {
        Step::Simple(_) => b"simple",
        Step::EnterJoint(true, _) => b"enter-joint autoleave=true",
        Step::EnterJoint(false, _) => b"enter-joint autoleave=false",
        Step::LeaveJoint => b"leave-joint",
    }
}

// Appends changes, each after a space.
fn append_changes(text: &mut Vec<u8>, changes: &[Change]) -> Result<(), NoMemory>
    ensures ok { OnOk result
        (text.new.items ≡ text.old.items ++ flat_map spaced_change changes.now) }
    ensures extends { Extends text.old.items text.new.items }
{
    for change in changes {
        text.push(b' ')?;
        append_token(text, *change)?;
    }
    Ok(())
}

/// The text of changes, with one space between them: `v1 r2`, as in a list of changes.
pub fn changes_text(alloc: Global, changes: &[Change]) -> Result<Vec<u8>, NoMemory>
    ensures { IfOk result (λ text. text.items ≡ join_with_byte 32 (map change_text changes.now)) }
{
    let mut text = Vec::new(alloc);
    let Some((first, rest)) = changes.split_first() else {
        return Ok(text);
    };
    append_token(&mut text, *first)?;
    append_changes(&mut text, rest)?;
    Ok(text)
}

// Appends a change: its letter and its id, as in `v4`.
fn append_token(text: &mut Vec<u8>, change: Change) -> Result<(), NoMemory>
    ensures ok { OnOk result (text.new.items ≡ text.old.items ++ change_text change) }
    ensures extends { Extends text.old.items text.new.items }
{
    text.push(letter(change.kind))?;
    append_number(text, change.id)?;
    Ok(())
}

/// The letter of a kind in a list of changes.
pub fn letter(kind: Kind) -> u8
    ensures { result ≡ letter_of kind }
{
    match kind {
        Kind::Voter => b'v',
        Kind::Learner => b'l',
        Kind::Remove => b'r',
        Kind::Update => b'u',
    }
}

/// Reads the lines of a plan: a path of at most four steps. Refused as by [`read_path`], and at a fifth line, whatever
/// it is. The law [`one_plan_per_text`](crate::laws::one_plan_per_text) says which plan a text denotes.
pub fn read_plan(alloc: Global, text: &[u8]) -> Result<Plan, PlanTextFault>
    ensures { (result ≡ plan_in text.now) ⊎ (result ≡ Err PlanTextFault.NoMemory) }
{
    at_most_four(read_path(alloc, text))
}

// The plan of a path that was read, if its lines are at most four.
fn at_most_four(read: Result<Path, PlanTextFault>) -> Result<Plan, PlanTextFault>
    ensures { result ≡ code.at_most_four read }
{
    match read {
        Ok(path) => {
            if path.len() <= 4 {
                Ok(Plan::of_path(path))
            } else {
                Err(PlanTextFault::TooManySteps)
            }
        }
        Err(PlanTextFault::BadLine(number)) if number > 4 => Err(PlanTextFault::TooManySteps),
        Err(fault) => Err(fault),
    }
}

/// Reads the lines of a path of any length, in the form of [`print_path`]; tokens may have any white space around them,
/// and ids leading zeros. Refused at the first line that is not parsed as a step, and never with `TooManySteps`. A blank
/// line is not a step, and the empty text is one blank line. The law
/// [`one_path_per_text`](crate::laws::one_path_per_text) says which path a text denotes.
pub fn read_path(alloc: Global, text: &[u8]) -> Result<Path, PlanTextFault>
    ensures { (result ≡ path_in text.now) ⊎ (result ≡ Err PlanTextFault.NoMemory) }
{
    if text.is_empty() {
        return Err(PlanTextFault::BadLine(1));
    }
    let mut steps = Vec::new(alloc);
    if is_nothing_to_do(text) {
        return Ok(Path::of_steps(steps));
    }
    let mut rest = text;
    while let Some((line, after)) = next_full_line(rest) {
        let step = read_step(alloc, line)?.ok_or(PlanTextFault::BadLine(steps.len() + 1))?;
        steps.push(step)?;
        rest = after;
    }
    Ok(Path::of_steps(steps))
}

// Whether the text is the one line `nothing to do`.
fn is_nothing_to_do(text: &[u8]) -> bool
    ensures { result ≡ code.is_nothing_to_do (full_lines text.now) }
{
    match next_full_line(text) {
        Some((line, after)) => is_nothing(line) && next_full_line(after).is_none(),
        None => false,
    }
}

// Whether the line is `nothing to do`.
fn is_nothing(line: &[u8]) -> bool
    ensures { result ≡ code.is_nothing (tokens_in line.now) }
{
    let Some((first, rest)) = next_token(line) else {
        return false;
    };
    let Some((second, rest)) = next_token(rest) else {
        return false;
    };
    let Some((third, rest)) = next_token(rest) else {
        return false;
    };
    first == b"nothing".as_slice()
        && second == b"to".as_slice()
        && third == b"do".as_slice()
        && next_token(rest).is_none()
}

// Reads a step from its line, if it is one.
fn read_step(alloc: Global, line: &[u8]) -> Result<Option<Step>, NoMemory>
    ensures { IfOk result (λ read. read ≡ step_in (tokens_in line.now)) }
{
    let Some((command, rest)) = next_token(line) else {
        return Ok(None);
    };
    if command == b"simple".as_slice() {
        Ok(read_list(alloc, rest)?.map(Step::Simple))
    } else if command == b"enter-joint".as_slice() {
        read_enter(alloc, rest)
    } else if command == b"leave-joint".as_slice() && next_token(rest).is_none() {
        Ok(Some(Step::LeaveJoint))
    } else {
        Ok(None)
    }
}

// Reads the rest of an `enter-joint` line: a flag, then changes.
fn read_enter(alloc: Global, text: &[u8]) -> Result<Option<Step>, NoMemory>
    ensures { IfOk result (λ read. read ≡ enter_in (tokens_in text.now)) }
{
    let Some((flag, rest)) = next_token(text) else {
        return Ok(None);
    };
    let Some(auto_leave) = read_flag(flag) else {
        return Ok(None);
    };
    let list = read_list(alloc, rest)?;
    Ok(list.map(|changes| Step::EnterJoint(auto_leave, changes)))
}

// Reads the flag from its token, if it is one.
fn read_flag(token: &[u8]) -> Option<bool>
    ensures { result ≡ code.flag_of_token token.now }
{
    if token == b"autoleave=true".as_slice() {
        Some(true)
    } else if token == b"autoleave=false".as_slice() {
        Some(false)
    } else {
        None
    }
}

// Reads the changes of a list, if each token is parsed as one.
fn read_list(alloc: Global, text: &[u8]) -> Result<Option<Changes>, NoMemory>
    ensures { IfOk result (λ read. read ≡ list_in (tokens_in text.now)) }
{
    match read_changes(alloc, text) {
        Ok(list) => Ok(Some(Changes::from(list))),
        Err(TokenFault::NoMemory) => Err(NoMemory),
        Err(_) => Ok(None),
    }
}
