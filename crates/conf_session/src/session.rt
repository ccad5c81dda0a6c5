//! A session: the state that the directives of a script act on.
//!
//! What names no source here is own.
ghost use Rattle.std.specs.Prelude.{◌≡◌, ◌≢◌, ◌↔◌, ◌≤◌, ◌-◌, Some, Ok, Err, IfOk, OnOk, OnErr, length, option_copied, slice_get};
ghost use Rattle.conf_change.specs.Changer.{IsSound};
ghost use Rattle.conf_change.specs.declared.floor.Floor.TheVariants.{One};
ghost use Rattle.conf_change.specs.Configuration.{Configuration};
ghost use Rattle.conf_plan.specs.Best.{IsBest};
ghost use Rattle.conf_session.specs.SessionState.{IsSession, new_session, current};
ghost use Rattle.conf_session.specs.Commands.{answer};
ghost use Rattle.conf_session.specs.Undo.{LeadsBack, undo_plan_of};
ghost use Rattle.conf_session.specs.ReplyLines.{IsValidOutput};
ghost use Rattle.conf_session.specs.declared.undo_fault.UndoFault.{UndoFault as WhyNot};

use crate::buffers::Buffers;
use crate::commands::{row_of, run};
use crate::laws::{actual_output_is_valid, answer_keeps_session, undo_plan_leads_back};
use crate::session_ids::SessionIds;
use crate::state::State;
use crate::undo_fault::UndoFault;
use conf_change::{Changer, Config, Floor};
use conf_plan::Plan;
use dd_file::item::Directive;
use quorum_sets::NoMemory;
use std::alloc::Global;
use std::marker::Model;
use std::mem::replace;

// How many bytes an output usually has at most.
const USUAL_OUTPUT: usize = 512;

/// A configuration with the progress of its members, on which directives act, and the configurations from before its
/// last accepted changes. A session runs one script, as etcd's tests make one `Changer` for each script file.
#[derive(Drop)]
pub struct Session {
    state: State,
    buffers: Buffers,
    alloc: Global,
}

impl Model for Session {
    ghost use Rattle.conf_session.specs.SessionState.{SessionState, session_code};

    ghost Value = { SessionState };

    ghost coded = { session_code };

    ghost view = { λ s. s.state };
}

impl Session {
    /// A session with an empty configuration, last index 0 and floor one. It keeps at most `history` earlier
    /// configurations, for which memory is allocated here.
    pub fn new(alloc: Global, history: usize) -> Result<Session, NoMemory>
        ensures { IfOk result (λ session. session ≡ new_session history One) }
    {
        Session::with_floor(alloc, history, Floor::One)
    }

    /// A session in which the next index of a new member is at least `floor`. With floor zero it answers as etcd's
    /// tests do, in which the first member has next 0.
    pub fn with_floor(alloc: Global, history: usize, floor: Floor) -> Result<Session, NoMemory>
        ensures { IfOk result (λ session. session ≡ new_session history floor) }
    {
        Ok(Session {
            state: State::new(alloc, history, floor)?,
            buffers: Buffers::new(alloc),
            alloc,
        })
    }

    /// The changer: the current configuration, the progress of its members, and the last index.
    pub fn changer(&self) -> &Changer<SessionIds>
        ensures changer { result.now ≡ self.now.changer }
        ensures sound { IsSound self.now.changer.tracker }
        ensures session { IsSession self.now }
    {
        self.state.is_session();
        self.state.changer()
    }

    /// How many earlier configurations are kept. At most this many changes can be undone at once.
    pub fn kept(&self) -> usize
        ensures kept { result ≡ length self.now.kept }
        ensures few { result ≤ self.now.history }
    {
        self.state.is_session();
        self.state.kept.len()
    }

    /// The configuration before an accepted change. The one before the last change is at index 0.
    pub fn kept_at(&self, index: usize) -> Option<&Config<SessionIds>>
        ensures { option_copied result ≡ slice_get self.now.kept index }
    {
        self.state.kept_at(index)
    }

    /// The plan that undoes the last `count` accepted changes. It is the best plan to the configuration before
    /// them: the shortest, which also preserves the progress of the most members and names each id in the fewest
    /// changes.
    ///
    /// It is refused with `NotKept` if fewer than `count` configurations are kept, else with `NoVoterTarget` if the
    /// configuration before the changes has no voter.
    pub fn undo_plan(&self, count: usize) -> Result<Plan, UndoFault>
        requires { 1 ≤ count }
        ensures planned { IfOk result (λ plan. undo_plan_of self.now count ≡ Ok plan) }
        ensures refused { (fault : WhyNot) → fault ≢ UndoFault.NoMemory
            → ((result ≡ Err fault) ↔ (undo_plan_of self.now count ≡ Err fault)) }
        ensures back { IfOk result (LeadsBack self.now count) }
        ensures best { IfOk result (λ plan. (older : Configuration)
            → slice_get self.now.kept (count - 1) ≡ Some older
            → IsBest (current self.now) plan older) }
    {
        self.state.is_session();
        undo_plan_leads_back();
        self.state.undo_plan(self.alloc, count)
    }

    /// Runs a directive and returns its output, which a script expects below the separator. The last index rises by one
    /// after each directive, refused ones too, as in etcd's tests; that it rises after a question too is own.
    pub fn step(&mut self, directive: &Directive) -> Result<Vec<u8>, NoMemory>
        ensures actual { IfOk result (λ actual. actual.items
            ≡ (answer self.old directive.now).actual) }
        ensures valid_output { IfOk result (λ actual. IsValidOutput actual.items) }
        ensures session { OnOk result (self.new ≡ (answer self.old directive.now).session) }
        ensures unchanged { OnErr result (self.new ≡ self.old) }
    {
        self.state.is_session();
        answer_keeps_session();
        actual_output_is_valid();
        let mut actual = replace(&mut self.buffers.output, Vec::new(self.alloc));
        actual.clear();
        actual.reserve(USUAL_OUTPUT)?;
        let row = row_of(directive.command());
        let input = directive.input();
        let arguments = directive.arguments();
        let update = run(
            &mut actual,
            &self.state,
            &mut self.buffers,
            &row,
            input,
            arguments,
        )?;
        self.state.apply(update, &mut self.buffers.next);
        Ok(actual)
    }

    /// Takes back an output that is no longer used, so that a later one has its memory.
    pub fn reuse(&mut self, output: Vec<u8>)
        ensures { self.new ≡ self.old }
    {
        self.buffers.output = output;
    }
}
