//! Calls that are repeated if memory ran out.

/// The result of a call; if memory ran out, that of a second call. Only one allocation of a process is refused, so the
/// second call has enough memory. A macro, since a closure would be proved for each call.
#[macro_export]
macro_rules! twice {
    ($no_memory:pat, $call:expr) => {
        match $call {
            Err($no_memory) => $call,
            answer => answer,
        }
    };
}
