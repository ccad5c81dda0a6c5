//! `undo`: undoes the last accepted changes, by the steps of a plan (own). Changes are not reversed one by one: the
//! plan is the best one to the earlier configuration, whatever lies between.
ghost use Rattle.std.specs.Prelude.{◌≡◌, ◌≤◌, [], Ok, IfOk};
ghost use Rattle.conf_session.specs.Commands.{undo_last};
ghost use Rattle.conf_session.specs.Reply.{reply_in};
ghost use Rattle.conf_session.specs.Undo.{undo_plan_of, undone};

use crate::reply_texts::{append_line, append_tracker};
use crate::session_ids::SessionIds;
use crate::session_update::SessionUpdate;
use crate::state::State;
use crate::undo_fault::{UndoFault, undo_fault_text};
use conf_change::Changer;
use conf_plan::laws::one_changer_after_steps;
use conf_plan::{Plan, apply_plan, print_plan};
use quorum_sets::NoMemory;

/// Undoes the last `count` changes in the next changer, and prints the plan and the resulting configuration, or prints
/// why they cannot be undone.
pub(super) fn run(
    text: &mut Vec<u8>,
    session: &State,
    next: &mut Changer<SessionIds>,
    count: usize,
) -> Result<SessionUpdate, NoMemory>
    requires blank { text.old.items ≡ [] }
    requires some { 1 ≤ count }
    ensures { IfOk result (λ update. reply_in session.now.changer next.new text.new.items update
        ≡ undo_last session.now count) }
{
    let alloc = *text.allocator();
    match session.undo_plan(alloc, count) {
        Ok(plan) => take_steps(text, session, next, count, &plan),
        Err(fault) => match fault {
            UndoFault::NoMemory => Err(NoMemory),
            _ => {
                let why = undo_fault_text(alloc, fault)?;
                append_line(text, why.as_slice(), b"")?;
                Ok(SessionUpdate::Nothing)
            }
        },
    }
}

// Takes the steps of the plan in a copy of the current changer.
fn take_steps(
    text: &mut Vec<u8>,
    session: &State,
    next: &mut Changer<SessionIds>,
    count: usize,
    plan: &Plan,
) -> Result<SessionUpdate, NoMemory>
    requires blank { text.old.items ≡ [] }
    requires plan { undo_plan_of session.now count ≡ Ok plan.now }
    ensures { IfOk result (λ update. reply_in session.now.changer next.new text.new.items update
        ≡ undone session.now count plan.now) }
{
    one_changer_after_steps();
    *next = session.changer().try_clone()?;
    match apply_plan(next, plan) {
        Ok(()) => {
            print_plan(text, plan)?;
            append_tracker(text, next.tracker())?;
            Ok(SessionUpdate::Undone(count))
        }
        // Each step of a plan is accepted, so only memory can run out.
        Err(_) => Err(NoMemory),
    }
}
