//! What a call returns: a status and a number.
ghost use Rattle.std.specs.Prelude.{◌≡◌};
ghost use Rattle.confscript_c.specs.Answer.{status_answer, done, no_memory};

use crate::status::Status;
use quorum_sets::NoMemory;

/// What each call but `confscript_version` and `confscript_committed` returns, as `struct confscript_answer`: the code
/// of a [`Status`], and a number whose meaning depends on the status. The number is 0 if the status needs none.
#[repr(C)]
#[derive(Clone, Copy)]
pub struct Answer {
    /// The code of a status.
    pub status: u32,
    /// The length of a text, an index, a count, the result of a vote, or the number of a line or a step, from 1.
    pub number: u64,
}

impl Answer {
    pub(crate) fn new(status: Status, number: u64) -> Answer
        ensures { result ≡ status_answer status number }
    {
        Answer {
            status: status.code(),
            number,
        }
    }

    // The call did its work; the number is its result.
    pub(crate) fn done(number: u64) -> Answer
        ensures { result ≡ done number }
    {
        Answer::new(Status::Done, number)
    }

    // Memory ran out, at whatever point of the call.
    pub(crate) fn no_memory() -> Answer
        ensures { result ≡ no_memory }
    {
        Answer::new(Status::NoMemory, 0)
    }
}

impl From<NoMemory> for Answer {
    ghost use Rattle.confscript_c.specs.Answer.{no_memory};

    ghost from_gives = { λ _ converted. converted ≡ no_memory };

    fn from(_error: NoMemory) -> Answer {
        Answer::no_memory()
    }
}
