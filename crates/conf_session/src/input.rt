//! The input of a directive: the lines between the directive line and the separator. It is read before the arguments,
//! so a command that takes no input reports an input before a bad argument.
ghost use Rattle.std.specs.Prelude.{◌≡◌, [], IfOk, OnOk, if◌then◌else◌};
ghost use Rattle.conf_session.specs.Input as spec;
ghost use Rattle.conf_session.specs.Reading.{IsRead};

use crate::reply_texts::{append_bad_token, append_line};
use conf_change::{
    Change, ConfState, ConfStateFault, TokenFault, read_changes_into, read_conf_state,
};
use quorum_sets::NoMemory;
use std::alloc::Global;
use std::marker::Model;

/// What the input of a command is read as.
#[derive(Clone, Copy)]
pub(crate) enum InputKind {
    /// A list of changes, as `v1 l2 r3`.
    Changes,
    /// A list of changes that must be empty, for `leave-joint`. White space is allowed, and a bad token is reported as
    /// such.
    NoChange,
    /// The ConfState line of a saved configuration, as `conf-state` prints it.
    ConfStateLine,
    /// Nothing, not even white space.
    Nothing,
}

/// The changes of an input, or its saved configuration. The other is empty.
#[derive(Drop)]
pub(crate) struct Input {
    pub(crate) changes: Vec<Change>,
    pub(crate) saved: ConfState,
}

impl Model for Input {
    ghost use Rattle.conf_session.specs.Input as spec;

    ghost Value = { spec.Input };

    ghost view = { λ i. record { changes = i.changes.items; saved = i.saved } };
}

impl Input {
    /// An empty input.
    pub(crate) fn new(alloc: Global) -> Input {
        Input {
            changes: Vec::new(alloc),
            saved: empty_conf_state(alloc),
        }
    }

    /// Reads an input in place of the previous one. If it is not valid, appends the line that reports its error.
    pub(crate) fn read(
        &mut self,
        reply: &mut Vec<u8>,
        kind: InputKind,
        text: &[u8],
    ) -> Result<bool, NoMemory>
        requires { reply.old.items ≡ [] }
        ensures { IfOk result (λ valid.
            IsRead (spec.read_input kind text.now) valid self.new reply.new.items) }
    {
        let alloc = *self.changes.allocator();
        self.changes.clear();
        self.saved = empty_conf_state(alloc);
        match kind {
            InputKind::Changes => read_change_list(reply, &mut self.changes, text),
            InputKind::NoChange => {
                Ok(
                    read_change_list(reply, &mut self.changes, text)?
                        && is_none(reply, self.changes.is_empty())?,
                )
            }
            InputKind::ConfStateLine => read_saved(reply, &mut self.saved, text),
            InputKind::Nothing => is_none(reply, text.is_empty()),
        }
    }
}

// A saved configuration in which every list is empty.
fn empty_conf_state(alloc: Global) -> ConfState
    ensures { result ≡ spec.nothing_saved }
{
    ConfState {
        voters: Vec::new(alloc),
        voters_outgoing: Vec::new(alloc),
        learners: Vec::new(alloc),
        learners_next: Vec::new(alloc),
        auto_leave: false,
    }
}

// Reads a list of changes.
fn read_change_list(
    reply: &mut Vec<u8>,
    changes: &mut Vec<Change>,
    text: &[u8],
) -> Result<bool, NoMemory>
    requires { reply.old.items ≡ [] }
    ensures { IfOk result (λ valid. IsRead (spec.read_input InputKind.Changes text.now) valid
        (spec.of_changes changes.new.items) reply.new.items) }
{
    match read_changes_into(changes, text) {
        Ok(()) => Ok(true),
        Err(TokenFault::NoMemory) => Err(NoMemory),
        Err(fault) => {
            append_bad_token(reply, fault)?;
            Ok(false)
        }
    }
}

// Reads a ConfState line. `restore` checks whether it describes a configuration.
fn read_saved(reply: &mut Vec<u8>, saved: &mut ConfState, text: &[u8]) -> Result<bool, NoMemory>
    requires { reply.old.items ≡ [] }
    ensures { IfOk result (λ valid. IsRead (spec.read_input InputKind.ConfStateLine text.now) valid
        (record { changes = []; saved = saved.new }) reply.new.items) }
{
    match read_conf_state(*reply.allocator(), text) {
        Ok(read) => {
            *saved = read;
            Ok(true)
        }
        Err(ConfStateFault::BadConfState) => {
            append_line(reply, b"bad conf state", b"")?;
            Ok(false)
        }
        Err(ConfStateFault::NoMemory) => Err(NoMemory),
    }
}

// Whether there is no input, for a command that takes none. Appends the error if there is one.
fn is_none(reply: &mut Vec<u8>, is_empty: bool) -> Result<bool, NoMemory>
    requires { reply.old.items ≡ [] }
    ensures valid { IfOk result (λ valid. valid ≡ is_empty) }
    ensures reply { OnOk result (reply.new.items ≡ (if is_empty then [] else spec.no_input_line)) }
{
    if !is_empty {
        append_line(reply, b"this command takes no input", b"")?;
    }
    Ok(is_empty)
}
