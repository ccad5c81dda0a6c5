//! Buffers that are reused between directives.
use crate::input::Input;
use crate::session_ids::SessionIds;
use crate::values::Values;
use conf_change::Changer;
use std::alloc::Global;

/// What a directive writes before the session changes. A directive reads nothing in it that an earlier one wrote.
#[derive(Drop)]
pub(crate) struct Buffers {
    /// The changer that an accepted command leads to. `State::apply` swaps it with the current one.
    pub(crate) next: Changer<SessionIds>,
    /// The changes or the saved configuration of the input.
    pub(crate) input: Input,
    /// The values of the arguments.
    pub(crate) values: Values,
    /// An output that is no longer used.
    pub(crate) output: Vec<u8>,
}

impl Buffers {
    /// Empty buffers.
    pub(crate) fn new(alloc: Global) -> Buffers {
        Buffers {
            next: Changer::new(alloc, 0),
            input: Input::new(alloc),
            values: Values::new(alloc),
            output: Vec::new(alloc),
        }
    }
}
