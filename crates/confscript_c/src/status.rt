//! The statuses: that a call is done, or why it is refused. Their codes never change, since callers are compiled with
//! them; a new status gets the next code.
ghost use Rattle.std.specs.Prelude.{◌≡◌, Ok, length};
ghost use Rattle.confscript_c.specs.Status.{code_of, text_of_code};
ghost use Rattle.confscript_c.specs.Written.{answer_to, buffer_after};

use crate::answer::Answer;
use crate::buffer::write_out;

/// The statuses with their codes, which `enum confscript_status` names. The number of an answer is 0 unless documented
/// otherwise (own; those of refused steps and broken invariants are etcd's, but for `ZeroId` and `NextAndIncoming`).
#[derive(Clone, Copy)]
pub enum Status {
    /// The call did its work. The number is its result.
    Done = 0,
    /// The text does not fit into the buffer. The number is its length.
    TooSmall = 1,
    /// Memory ran out.
    NoMemory = 2,
    /// A text is not a ConfState line. The number is that of the text: 1 or 2.
    BadConfState = 3,
    /// An id is listed twice. The number is the id.
    RepeatedId = 4,
    /// A text names no configuration that the call accepts. The number is that of the text: 1 or 2.
    NotAConfiguration = 5,
    /// A configuration has no incoming voter. The number is 1 for the current configuration of a plan, 2 for its
    /// target, and 0 for any other.
    NoVoter = 6,
    /// A line of a plan is not a step. The number is that of the line, from 1.
    BadLine = 7,
    /// A change of a target removes an id that is not a member. The number is the id.
    NotAMember = 8,
    // From here to 14 a step is refused. By `confscript_apply`, the number is that of the step, from 1.
    AlreadyJoint = 9,
    ZeroVoterJoint = 10,
    NotJoint = 11,
    SimpleInJoint = 12,
    RemovedAllVoters = 13,
    MoreThanOneVoter = 14,
    // From here to 18, and in 20, an invariant is broken. For 16 to 18, the number is the least id that breaks it.
    ZeroId = 15,
    NextNotOutgoing = 16,
    NextAndIncoming = 17,
    LearnerAndVoter = 18,
    /// The changes of a target remove a member and add it again. The number is the id.
    AddedAgain = 19,
    NotJointButAutoLeave = 20,
    /// An array does not have the form of a configuration in numbers.
    DifferentLengths = 21,
    /// A vote is neither 0, 1 nor 2.
    BadVote = 22,
    /// The voters are no quorum even with none down.
    NoQuorum = 23,
    /// The code of the strategy is unknown.
    BadStrategy = 24,
    /// The strategy has no path into a joint configuration.
    JointTarget = 25,
    /// The number of the step is unknown.
    BadStep = 26,
    /// The number of the kind of a change is unknown. The number is that of the change, from 1.
    BadChange = 27,
    /// The code of the output is unknown.
    BadOutput = 28,
    /// The first text is in no form of a configuration. The number is 1.
    UnknownForm = 29,
    /// A text is not a configuration as it is printed. The number is that of the text: 1 or 2.
    BadPrinted = 30,
    /// A text is not the JSON of a configuration. The number is that of the text: 1 or 2.
    BadJson = 31,
    /// A text is not a list of changes. The number is that of the text: 2.
    BadChangeList = 32,
    /// An id that is down is a member of neither configuration. The number is the least such id.
    DownNotAMember = 33,
    /// By the strategy a new voter votes with an empty log, so that the cluster may stall.
    StrategyMayStall = 34,
    /// The target has auto-leave, so raft leaves it by itself.
    AutoLeaveTarget = 35,
    /// There is a leader, and no index makes the configuration known.
    NoConfIndex = 36,
    /// The leader is a member, and the view has no progress of it.
    NoLeaderProgress = 37,
}

impl Status {
    /// The code of the status, from 0 to 37.
    pub fn code(self) -> u32
        ensures { result ≡ code_of self }
    {
        self as u32
    }
}

/// Writes what the status of this code means, or `unknown status` for any other number. The number of the answer is the
/// length of the text in bytes. It takes no memory, and is refused only if the buffer is too small (own).
#[unsafe(no_mangle)]
pub extern "C" fn confscript_status_text(code: u32, out: &mut [u8]) -> Answer
    ensures answer { result ≡ answer_to (Ok (text_of_code code)) (length out.old) }
    ensures written { out.new ≡ buffer_after (Ok (text_of_code code)) out.old }
{
    write_out(text_of_code(code).as_bytes(), out)
}

// What the status of this code means. The text of a refused step is etcd's message.
fn text_of_code(code: u32) -> &'static str
    ensures { result.now ≡ text_of_code code }
{
    match code {
        0 => "done",
        1 => "the buffer is too small",
        2 => "out of memory",
        3 =>
            "not a ConfState line: expected Voters:[1 2] VotersOutgoing:[] Learners:[3] LearnersNext:[] AutoLeave:false",
        4 => "an id is named twice",
        5 =>
            "not a configuration: an id is 0 or listed twice, a learner is a voter, a next learner is not an outgoing voter alone, or auto-leave has no outgoing voters",
        6 => "no incoming voter",
        7 => "not a step: expected simple l4 l5, enter-joint autoleave=false r1 v4, or leave-joint",
        8 => "not a member",
        9 => "config is already joint",
        10 => "can't make a zero-voter config joint",
        11 => "can't leave a non-joint config",
        12 => "can't apply simple config change in joint config",
        13 => "removed all voters",
        14 => "more than one voter changed without entering joint config",
        15 => "the id 0",
        16 => "a next learner is not an outgoing voter",
        17 => "a next learner is an incoming voter",
        18 => "a learner is a voter",
        19 => "removed and added again: a server that lost its log needs a new id",
        20 => "auto-leave without outgoing voters",
        21 => "the counts do not match the length",
        22 => "a vote is neither 0, 1 nor 2",
        23 => "the voters are no quorum",
        24 => "unknown strategy",
        25 => "the target is joint",
        26 => "unknown step",
        27 => "unknown kind of change",
        28 => "unknown output",
        29 =>
            "no form of a configuration: expected voters=(1 2 3) learners=(4), a ConfState line, or JSON of a ConfState or of etcdctl member list",
        30 =>
            "not a printed configuration: expected voters=(1 2)&&(1 2 3) learners=(4) learners_next=(3) autoleave, without what is empty, with spaces between ids",
        31 =>
            "not the JSON of a configuration: expected voters, voters_outgoing, learners, learners_next and auto_leave, or etcdctl member list -w json, with decimal numbers as ids",
        32 =>
            "not a list of changes: expected changes as r1 v4 l5, or a configuration as voters=(1 2 3), a ConfState line, or JSON",
        33 => "down and not a member",
        34 => "by this strategy the cluster may stall",
        35 => "the target has auto-leave: raft leaves it by itself",
        36 => "there is a leader, and the index of the configuration is 0",
        37 => "the leader is a member, and the view has no progress of it",
        _ => "unknown status",
    }
}
