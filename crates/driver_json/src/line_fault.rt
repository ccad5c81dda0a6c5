//! Why a line is refused.
ghost use Rattle.std.specs.Prelude.{◌≡◌};
ghost use Rattle.driver_json.specs.Texts as spec;

use crate::place::{Key, Place};
use conf_change::Violation;
use conf_driver::{MemberView, NextFault};
use quorum_sets::NoMemory;
use std::alloc::{AllocError, AllocFailed};
use std::fmt;

/// What is expected at a place.
#[derive(Clone, Copy, Debug, PartialEq, Eq)]
pub enum Expected {
    /// A number, written without a sign, a fraction or an exponent.
    Number,
    /// Such a number other than 0.
    Id,
    /// A list of ids.
    Ids,
    /// A boolean.
    Flag,
    /// The list of members.
    Members,
    /// One of them.
    Member,
    /// A configuration, in one of the two forms that `plan` reads in JSON.
    ConfState,
    /// The name of a strategy.
    Strategy,
}

impl Expected {
    fn text(self) -> &'static str
        ensures { result.now ≡ spec.expected_text self }
    {
        match self {
            Expected::Number => "a number from 0 to 18446744073709551615",
            Expected::Id => "an id from 1 to 18446744073709551615",
            Expected::Ids => "a list of ids, as [1,2,3]",
            Expected::Flag => "true or false",
            Expected::Members => "a list of members",
            Expected::Member => "an object, as {\"id\":1,\"match\":60,\"recent_active\":true}",
            Expected::ConfState => {
                "a ConfState, as {\"voters\":[1,2,3],\"learners\":[4]}, or etcdctl member list -w json"
            }
            Expected::Strategy => "learners-first or one-at-a-time",
        }
    }
}

/// Why a line is refused.
#[derive(Clone, Copy, Debug, PartialEq, Eq)]
pub enum LineFault {
    /// It is not JSON, or not of an object.
    NotAnObject,
    /// A value is not what is expected at its place.
    NotExpected(Place, Expected),
    /// The configuration at a key is not valid.
    NotValid(Key, Violation),
    /// There is no answer.
    NoAnswer(NextFault),
    /// An allocation failed.
    NoMemory,
}

// The message of a violation. It is that of its `Display`, whose text no contract states.
#[derive(Clone, Copy)]
struct Reason(Violation);

impl fmt::Display for Reason {
    ghost use Rattle.std.specs.Prelude.{Some};
    ghost use Rattle.driver_json.specs.Texts.{violation_text};

    ghost output = { λ reason. Some (violation_text reason.0) };

    fn fmt<W: fmt::Write>(&self, f: &mut fmt::Formatter<W>) -> fmt::Result {
        match self.0 {
            Violation::ListedTwice(id) => write!(f, "{id} is listed twice"),
            Violation::ZeroId => f.write_str("0 is not an id"),
            Violation::NextNotOutgoing(id) => {
                write!(f, "{id} is a next learner and not an outgoing voter")
            }
            Violation::NextAndIncoming(id) => {
                write!(f, "{id} is a next learner and an incoming voter")
            }
            Violation::LearnerAndVoter(id) => write!(f, "{id} is a voter and a learner"),
            Violation::NotJointButAutoLeave => f.write_str("auto-leave without outgoing voters"),
        }
    }
}

// The message of a refusal of `next`.
fn no_answer_text(why: NextFault) -> &'static str
    ensures { result.now ≡ spec.no_answer_text why }
{
    match why {
        NextFault::Shortest => "the strategy is shortest: its new voters may stall the cluster",
        NextFault::AutoLeaveTarget => "the target has auto-leave: raft leaves it by itself",
        NextFault::NoConfIndex => "there is a leader, and conf_index is 0",
        NextFault::NoLeaderProgress => "the leader is a member, and progress has no entry of it",
        NextFault::NoVoterNow => "no plan: the current configuration has no voter",
        NextFault::NoVoterTarget => "no plan: the target has no voter",
        NextFault::JointTarget => "no plan: the target is joint",
        NextFault::NoMemory => "out of memory",
    }
}

impl fmt::Display for LineFault {
    ghost use Rattle.std.specs.Prelude.{Some};
    ghost use Rattle.driver_json.specs.Texts.{fault_text};

    ghost output = { λ fault. Some (fault_text fault) };

    fn fmt<W: fmt::Write>(&self, f: &mut fmt::Formatter<W>) -> fmt::Result {
        match *self {
            LineFault::NotAnObject => f.write_str("not the JSON of an object"),
            LineFault::NotExpected(place, expected) => {
                let text = expected.text();
                write!(f, "{place}: expected {text}")
            }
            LineFault::NotValid(key, violation) => {
                let name = key.name();
                let reason = Reason(violation);
                write!(f, "{name}: not a configuration: {reason}")
            }
            LineFault::NoAnswer(why) => f.write_str(no_answer_text(why)),
            LineFault::NoMemory => f.write_str("out of memory"),
        }
    }
}

impl std::error::Error for LineFault {}

impl From<AllocError> for LineFault {
    ghost use Rattle.driver_json.specs.declared.line_fault.LineFault.TheVariants.{NoMemory};

    ghost from_gives = { λ _ fault. fault ≡ NoMemory };

    fn from(_error: AllocError) -> LineFault {
        LineFault::NoMemory
    }
}

impl From<AllocFailed<MemberView>> for LineFault {
    ghost use Rattle.driver_json.specs.declared.line_fault.LineFault.TheVariants.{NoMemory};

    ghost from_gives = { λ _ fault. fault ≡ NoMemory };

    fn from(_error: AllocFailed<MemberView>) -> LineFault {
        LineFault::NoMemory
    }
}

impl From<NoMemory> for LineFault {
    ghost use Rattle.driver_json.specs.declared.line_fault.LineFault.TheVariants.{NoMemory};

    ghost from_gives = { λ _ fault. fault ≡ NoMemory };

    fn from(_error: NoMemory) -> LineFault {
        LineFault::NoMemory
    }
}
