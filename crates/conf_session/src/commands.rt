//! The commands of a script. Each is a row of a table: its name, the kind of its input, and its parameters. A
//! directive's input is read first, then its arguments, and then the command is run. So errors of input and arguments
//! are reported in one place, and a command gets valid values. A command does not change the session: the update is
//! part of its reply.
ghost use Rattle.std.specs.Prelude.{◌≡◌, ◌≤◌, [], option_map, IfOk};
ghost use Rattle.conf_session.specs.Reply.{reply_in};
ghost use Rattle.conf_session.specs.Commands as spec;

mod ack;
mod quorums;
mod restore;
mod step;
mod undo;

use crate::buffers::Buffers;
use crate::input::{Input, InputKind};
use crate::parameter::Parameter;
use crate::reply_texts::{append_conf_state, append_line};
use crate::session_ids::SessionIds;
use crate::session_update::SessionUpdate;
use crate::state::State;
use crate::values::Values;
use conf_change::{Changer, StepKind, taken};
use dd_file::item::Argument;
use quorum_sets::NoMemory;

/// The command of a directive. `Simple`, `EnterJoint` and `LeaveJoint` are the changes of etcd's package `confchange`.
/// `ConfChange` makes the one of them that etcd's raft makes for a `ConfChangeV2` with the same changes and transition.
#[derive(Clone, Copy)]
pub(crate) enum Command {
    Simple,
    EnterJoint,
    LeaveJoint,
    ConfChange,
    /// Prints the current configuration as a ConfState line.
    ConfState,
    /// Begins again from a saved configuration.
    Restore,
    /// Takes the plan back to an earlier configuration.
    Undo,
    /// Lets a member acknowledge an index.
    Ack,
    /// Prints the index that the current configuration commits.
    CommitIndex,
    /// Prints the chart of the quorum that the arguments name, and the index that it commits.
    Committed,
    /// Prints the result of a vote in the quorum that the arguments name.
    Vote,
    /// Any other name. Its input is still read as changes, as in etcd's tests.
    Unknown,
}

/// A command, the kind of its input, and its parameters, in the order in which missing arguments are reported. They are
/// `None` if the arguments are ignored.
#[derive(Drop)]
pub(crate) struct Row {
    command: Command,
    input: InputKind,
    parameters: Option<&'static [Parameter]>,
}

impl Row {
    ghost use Rattle.std.specs.Prelude.{◌≡◌};

    fn new(command: Command, input: InputKind, parameters: Option<&'static [Parameter]>) -> Row
        ensures command { result.command ≡ command }
        ensures input { result.input ≡ input }
        ensures parameters { result.parameters ≡ parameters.entry }
    {
        Row {
            command,
            input,
            parameters,
        }
    }
}

/// The table of commands: the row of a name.
pub(crate) fn row_of(name: &[u8]) -> Row
    ensures { spec.row_with result.command result.input (option_map (λ p. p.now) result.parameters)
        ≡ spec.row_of name.now }
{
    if name == b"simple".as_slice() {
        Row::new(Command::Simple, InputKind::Changes, None)
    } else if name == b"enter-joint".as_slice() {
        Row::new(
            Command::EnterJoint,
            InputKind::Changes,
            Some(&[Parameter::AutoLeave]),
        )
    } else if name == b"leave-joint".as_slice() {
        Row::new(Command::LeaveJoint, InputKind::NoChange, None)
    } else if name == b"conf-change".as_slice() {
        Row::new(
            Command::ConfChange,
            InputKind::Changes,
            Some(&[Parameter::Transition]),
        )
    } else if name == b"conf-state".as_slice() {
        Row::new(Command::ConfState, InputKind::Nothing, Some(&[]))
    } else if name == b"restore".as_slice() {
        Row::new(Command::Restore, InputKind::ConfStateLine, Some(&[]))
    } else if name == b"undo".as_slice() {
        Row::new(Command::Undo, InputKind::Nothing, Some(&[Parameter::Steps]))
    } else if name == b"ack".as_slice() {
        Row::new(
            Command::Ack,
            InputKind::Nothing,
            Some(&[Parameter::Id, Parameter::Index]),
        )
    } else if name == b"commit-index".as_slice() {
        Row::new(Command::CommitIndex, InputKind::Nothing, Some(&[]))
    } else if name == b"committed".as_slice() {
        Row::new(
            Command::Committed,
            InputKind::Nothing,
            Some(&[Parameter::Incoming, Parameter::Outgoing, Parameter::Indexes]),
        )
    } else if name == b"vote".as_slice() {
        Row::new(
            Command::Vote,
            InputKind::Nothing,
            Some(&[Parameter::Incoming, Parameter::Outgoing, Parameter::Votes]),
        )
    } else {
        Row::new(Command::Unknown, InputKind::Changes, None)
    }
}

/// Reads the input and the arguments that the row names, and runs its command, or reports the first error. If the update
/// replaces the changer, the new one is `next` in the buffers afterwards.
pub(crate) fn run(
    text: &mut Vec<u8>,
    session: &State,
    buffers: &mut Buffers,
    row: &Row,
    input: &[u8],
    arguments: &[Argument],
) -> Result<SessionUpdate, NoMemory>
    requires { text.old.items ≡ [] }
    ensures { IfOk result (λ update.
        reply_in session.now.changer buffers.new.next text.new.items update
        ≡ spec.reply_by
        (spec.row_with row.now.command row.now.input (option_map
        (λ p. p.now) row.now.parameters))
        session.now input.now arguments.now) }
{
    if !buffers.input.read(text, row.input, input)?
        || !buffers
            .values
            .read_arguments(text, row.parameters, arguments)?
    {
        return Ok(SessionUpdate::Nothing);
    }
    let Buffers {
        next,
        input,
        values,
        ..
    } = buffers;
    run_command(text, session, next, row.command, input, values)
}

// Runs a command whose input and arguments are valid.
fn run_command(
    text: &mut Vec<u8>,
    session: &State,
    next: &mut Changer<SessionIds>,
    command: Command,
    input: &Input,
    values: &Values,
) -> Result<SessionUpdate, NoMemory>
    requires blank { text.old.items ≡ [] }
    requires some { 1 ≤ values.now.steps }
    ensures { IfOk result (λ update. reply_in session.now.changer next.new text.new.items update
        ≡ spec.reply_of command session.now input.now values.now) }
{
    let changer = session.changer();
    let changes = input.changes.as_slice();
    match command {
        Command::Simple => return step::run(text, changer, next, StepKind::Simple, changes),
        Command::EnterJoint => {
            let kind = StepKind::Enter(values.auto_leave);
            return step::run(text, changer, next, kind, changes);
        }
        Command::LeaveJoint => return step::run(text, changer, next, StepKind::Leave, changes),
        Command::ConfChange => {
            let kind = taken(values.transition, changes);
            return step::run(text, changer, next, kind, changes);
        }
        Command::ConfState => append_conf_state(text, changer.tracker().config())?,
        Command::Restore => return restore::run(text, changer, next, &input.saved),
        Command::Undo => return undo::run(text, session, next, values.steps as usize),
        Command::Ack => return ack::run(text, changer, values.id, values.index),
        Command::CommitIndex => quorums::commit_index(text, changer.tracker())?,
        Command::Committed => quorums::committed(text, values)?,
        Command::Vote => quorums::vote(text, values)?,
        Command::Unknown => append_line(text, b"unknown command", b"")?,
    }
    Ok(SessionUpdate::Nothing)
}
