//! The values of a directive's arguments. They are read before the command runs, so the command gets numbers and lists,
//! never text, and a default in place of a missing argument.
ghost use Rattle.std.specs.Prelude.{◌≡◌, true, ◌++◌, filter_map, is_some, unwrap_or, IfOk};
ghost use Rattle.conf_session.specs.Parameter.{all_read};
ghost use Rattle.conf_session.specs.Values as spec;

use crate::arguments::{has_key, missing_argument, parameter_of};
use crate::parameter::{Listed, Parameter, flag_in, has_only, number_from, transition_in};
use crate::reply_texts::append_line;
use conf_change::Transition;
use dd_file::item::Argument;
use quorum_sets::NoMemory;
use std::alloc::Global;
use std::marker::Model;

/// The value of each argument, or its default if the argument is missing. One type serves all commands: each looks at
/// the values of its own parameters.
#[derive(Drop)]
pub(crate) struct Values {
    /// Of `autoleave`; false by default.
    pub(crate) auto_leave: bool,
    /// Of `transition`; auto by default.
    pub(crate) transition: Transition,
    /// Of `steps`; at least 1, the default.
    pub(crate) steps: u64,
    /// Of `id`, which `ack` requires.
    pub(crate) id: u64,
    /// Of `index`, which `ack` requires.
    pub(crate) index: u64,
    /// The ids of `cfg`, with repeated ones.
    pub(crate) incoming: Vec<u64>,
    /// The ids of `cfgj`, with repeated ones.
    pub(crate) outgoing: Vec<u64>,
    /// Of `idx`; `None` for `_`.
    pub(crate) indexes: Vec<Option<u64>>,
    /// Of `votes`; `None` for `_`.
    pub(crate) votes: Vec<Option<bool>>,
}

impl Model for Values {
    ghost use Rattle.conf_session.specs.Values as spec;

    ghost Value = { spec.Values };

    ghost view = { λ v. record {
      auto_leave = v.auto_leave;
      transition = v.transition;
      steps = v.steps;
      id = v.id;
      index = v.index;
      incoming = v.incoming.items;
      outgoing = v.outgoing.items;
      indexes = v.indexes.items;
      votes = v.votes.items;
    } };
}

impl Values {
    ghost use Rattle.std.specs.Prelude.{◌≡◌, true, [], None, option_map, IfOk};
    ghost use Rattle.conf_session.specs.Reading.{IsRead};
    ghost use Rattle.conf_session.specs.Arguments.{bad_argument, is_allowed};
    ghost use Rattle.conf_session.specs.Parameter.{allows};
    ghost use Rattle.conf_session.specs.Values as spec;

    /// The values if there are no arguments: the defaults.
    pub(crate) fn new(alloc: Global) -> Values
        ensures { result ≡ spec.values_in [] }
    {
        Values {
            auto_leave: false,
            transition: Transition::Auto,
            steps: 1,
            id: 0,
            index: 0,
            incoming: Vec::new(alloc),
            outgoing: Vec::new(alloc),
            indexes: Vec::new(alloc),
            votes: Vec::new(alloc),
        }
    }

    /// Reads the arguments of a command that has these parameters, in place of the previous values. If they are not
    /// valid, appends the line that reports the error: the first bad argument, or else the first that is missing. If the
    /// parameters are `None` (`simple`, `leave-joint`, unknown commands), the arguments are ignored, as in etcd's tests.
    pub(crate) fn read_arguments(
        &mut self,
        reply: &mut Vec<u8>,
        parameters: Option<&[Parameter]>,
        arguments: &[Argument],
    ) -> Result<bool, NoMemory>
        requires { reply.old.items ≡ [] }
        ensures { IfOk result (λ valid. IsRead
            (spec.read_arguments (option_map (λ p. p.now) parameters.entry) arguments.now)
            valid self.new reply.new.items) }
    {
        self.clear();
        let Some(parameters) = parameters else {
            return Ok(true);
        };
        if let Some(key) = self.read(parameters, arguments)? {
            append_line(reply, b"bad argument: ", key)?;
            return Ok(false);
        }
        if let Some(parameter) = missing_argument(parameters, arguments) {
            append_line(reply, b"missing argument: ", parameter.key())?;
            return Ok(false);
        }
        Ok(true)
    }

    // Resets each value to its default.
    fn clear(&mut self)
        ensures { self.new ≡ spec.values_in [] }
    {
        self.auto_leave = false;
        self.transition = Transition::Auto;
        self.steps = 1;
        self.id = 0;
        self.index = 0;
        self.incoming.clear();
        self.outgoing.clear();
        self.indexes.clear();
        self.votes.clear();
    }

    // Reads the arguments, and returns the key of the first bad one: one that has no parameter, has values that are not
    // valid, or repeats a key. The values are then unspecified.
    fn read<'a>(
        &mut self,
        parameters: &[Parameter],
        arguments: &'a [Argument],
    ) -> Result<Option<&'a [u8]>, NoMemory>
        requires { self.old ≡ spec.values_in [] }
        ensures bad { IfOk result (λ bad. option_map (λ key. key.now) bad
            ≡ bad_argument parameters.now arguments.now) }
        ensures values { IfOk result (λ bad. bad ≡ None → self.new ≡ spec.values_in arguments.now) }
    {
        for (index, argument) in arguments.iter().enumerate() {
            if has_key(&arguments[..index], argument.key()) || !self.take(parameters, argument)? {
                return Ok(Some(argument.key()));
            }
        }
        Ok(None)
    }

    // Reads an argument, and returns whether it has a parameter and valid values. Its key has not come before.
    fn take(&mut self, parameters: &[Parameter], argument: &Argument) -> Result<bool, NoMemory>
        ensures allowed { IfOk result (λ good. good ≡ is_allowed parameters.now argument.now) }
        ensures values { IfOk result (λ good. good ≡ true
            → spec.HasMore self.old parameters.now argument.now self.new) }
    {
        match parameter_of(parameters, argument) {
            Some(parameter) => self.put(*parameter, argument),
            None => Ok(false),
        }
    }

    // Reads the values of a parameter's argument into its field, and returns whether they are valid.
    fn put(&mut self, parameter: Parameter, argument: &Argument) -> Result<bool, NoMemory>
        ensures allowed { IfOk result (λ good. good ≡ allows parameter argument.now.values) }
        ensures values { IfOk result (λ good. good ≡ true
            → self.new ≡ spec.with_more self.old parameter argument.now.values) }
    {
        match parameter {
            Parameter::AutoLeave => Ok(set(&mut self.auto_leave, flag_in(argument))),
            Parameter::Transition => Ok(set(&mut self.transition, transition_in(argument))),
            Parameter::Steps => Ok(set(&mut self.steps, number_from(1, argument))),
            Parameter::Id => Ok(set(&mut self.id, number_from(1, argument))),
            Parameter::Index => Ok(set(&mut self.index, number_from(0, argument))),
            Parameter::Incoming => read_list(&mut self.incoming, argument),
            // `zero` alone is the empty list, as in etcd's tests.
            Parameter::Outgoing if has_only(argument, b"zero") => Ok(true),
            Parameter::Outgoing => read_list(&mut self.outgoing, argument),
            Parameter::Indexes => read_list(&mut self.indexes, argument),
            Parameter::Votes => read_list(&mut self.votes, argument),
        }
    }
}

// Sets a field to a value that was read, and returns whether there is one.
fn set<T: Copy + Drop>(slot: &mut T, read: Option<T>) -> bool
    ensures read { result ≡ is_some read }
    ensures set { slot.new ≡ unwrap_or read slot.old }
{
    match read {
        Some(value) => {
            *slot = value;
            true
        }
        None => false,
    }
}

// Appends the values of an argument to a list, and returns whether each of them is valid. It stops at the first that is
// not.
fn read_list<T: Listed>(list: &mut Vec<T>, argument: &Argument) -> Result<bool, NoMemory>
    ensures all { IfOk result (λ all. all ≡ all_read T.reads argument.now.values) }
    ensures list { IfOk result (λ all. all ≡ true
        → list.new.items ≡ list.old.items ++ filter_map T.reads argument.now.values) }
{
    let mut values = argument.values();
    while let Some(value) = values.next() {
        let Some(one) = T::read(value) else {
            return Ok(false);
        };
        list.push(one)?;
    }
    Ok(true)
}
