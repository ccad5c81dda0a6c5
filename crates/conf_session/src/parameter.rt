//! The parameters of commands: their keys, and what values their arguments may have. `cfg`, `cfgj`, `idx` and `votes`
//! come from the tests of etcd's package `quorum`, `autoleave` from those of `confchange`; the others are own.
ghost use Rattle.std.specs.Prelude.{◌≡◌};
ghost use Rattle.conf_session.specs.Parameter as spec;

use ascii_text::number::read_number;
use conf_change::Transition as HowApplied;
use dd_file::item::Argument;

/// A parameter of a command.
#[derive(Clone, Copy)]
pub(crate) enum Parameter {
    /// `autoleave`: `true` or `false`, the auto-leave flag of the joint configuration.
    AutoLeave,
    /// `transition`: `auto`, `implicit` or `explicit`, as in etcd's `ConfChangeTransition`.
    Transition,
    /// `steps`: how many changes to undo, a number from 1.
    Steps,
    /// `id`: the member that acknowledges, a number from 1.
    Id,
    /// `index`: the log index that the member acknowledges, a number.
    Index,
    /// `cfg`: the ids of the incoming voters.
    Incoming,
    /// `cfgj`: the ids of the outgoing voters, or `zero` for none.
    Outgoing,
    /// `idx`: what each id has acknowledged, a number from 1, or `_` if unknown.
    Indexes,
    /// `votes`: what each id has voted, `y` or `n`, or `_` if unknown.
    Votes,
}

impl Parameter {
    ghost use Rattle.std.specs.Prelude.{◌≡◌};
    ghost use Rattle.conf_session.specs.Parameter as spec;

    /// The key of its argument: what is before `=`.
    pub(crate) fn key(self) -> &'static [u8]
        ensures { result.now ≡ spec.key_of self }
    {
        match self {
            Parameter::AutoLeave => b"autoleave",
            Parameter::Transition => b"transition",
            Parameter::Steps => b"steps",
            Parameter::Id => b"id",
            Parameter::Index => b"index",
            Parameter::Incoming => b"cfg",
            Parameter::Outgoing => b"cfgj",
            Parameter::Indexes => b"idx",
            Parameter::Votes => b"votes",
        }
    }

    /// Whether its argument is required. Every other argument has a default.
    pub(crate) fn is_required(self) -> bool
        ensures { result ≡ spec.is_required self }
    {
        matches!(self, Parameter::Id | Parameter::Index)
    }
}

/// Whether the argument has this value and no other. `steps=2` and `steps=(2)` are alike.
pub(crate) fn has_only(argument: &Argument, value: &[u8]) -> bool
    ensures { result ≡ spec.has_only value.now argument.now.values }
{
    let mut values = argument.values();
    match values.next() {
        Some(first) => first == value && values.next().is_none(),
        None => false,
    }
}

/// The flag that the argument's only value denotes.
pub(crate) fn flag_in(argument: &Argument) -> Option<bool>
    ensures { result ≡ spec.flag_in argument.now.values }
{
    if has_only(argument, b"true") {
        Some(true)
    } else if has_only(argument, b"false") {
        Some(false)
    } else {
        None
    }
}

/// The transition that the argument's only value denotes.
pub(crate) fn transition_in(argument: &Argument) -> Option<HowApplied>
    ensures { result ≡ spec.transition_in argument.now.values }
{
    if has_only(argument, b"auto") {
        Some(HowApplied::Auto)
    } else if has_only(argument, b"implicit") {
        Some(HowApplied::Implicit)
    } else if has_only(argument, b"explicit") {
        Some(HowApplied::Explicit)
    } else {
        None
    }
}

/// The number that the argument's only value denotes, if it is at least `least`.
pub(crate) fn number_from(least: u64, argument: &Argument) -> Option<u64>
    ensures { result ≡ spec.number_from least argument.now.values }
{
    let mut values = argument.values();
    let digits = values.next()?;
    if values.next().is_some() {
        return None;
    }
    let number = read_number(digits)?;
    if number < least {
        return None;
    }
    Some(number)
}

/// The type of the values in a list such as `cfg=(1,2,3)`.
pub(crate) trait Listed: Copy + Drop {
    ghost use Rattle.std.specs.Prelude.{◌≡◌, ℕ, List, Option};

    /// What the text of a value denotes, if it is valid.
    ghost reads: { List ℕ → Option Self };

    /// Parses the text of a value.
    fn read(value: &[u8]) -> Option<Self>
        ensures { result ≡ reads value.now };
}

/// An id. 0 is etcd's `raft.None`, which names no member.
impl Listed for u64 {
    ghost use Rattle.conf_session.specs.Parameter.{id_in};

    ghost reads = { id_in };

    fn read(value: &[u8]) -> Option<u64> {
        match read_number(value) {
            Some(0) | None => None,
            id => id,
        }
    }
}

/// An acknowledged index, if it is known. 0 is not a value, since an unknown index counts as 0.
impl Listed for Option<u64> {
    ghost use Rattle.conf_session.specs.Parameter.{index_in};

    ghost reads = { index_in };

    fn read(value: &[u8]) -> Option<Option<u64>> {
        if is_unknown(value) {
            return Some(None);
        }
        match read_number(value) {
            Some(0) | None => None,
            index => Some(index),
        }
    }
}

/// A vote, if it is known.
impl Listed for Option<bool> {
    ghost use Rattle.conf_session.specs.Parameter.{vote_in};

    ghost reads = { vote_in };

    fn read(value: &[u8]) -> Option<Option<bool>> {
        if value == b"y".as_slice() {
            Some(Some(true))
        } else if value == b"n".as_slice() {
            Some(Some(false))
        } else if is_unknown(value) {
            Some(None)
        } else {
            None
        }
    }
}

// Whether the value is `_`, which etcd's tests write for an unknown value.
fn is_unknown(value: &[u8]) -> bool
    ensures { result ≡ spec.is_unknown value.now }
{
    value == b"_".as_slice()
}
