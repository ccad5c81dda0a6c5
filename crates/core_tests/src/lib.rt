//! Test vectors for the public calls of the other crates: inputs with the results that the rules give, where the
//! scripts of `tests/scripts` do not show them. They are crates of their own, so that the other crates are not proved
//! again with their tests. This one has those of sets, changes, configurations, JSON and texts, `plan_tests` those of
//! plans and paths, and `script_tests` those of scripts, sessions and modes; their tests are proved beside each other.
//!
//! Each test outside of `ample` is run once for each of its allocations, with that one refused, and once with none
//! refused (see `tests/refused`). So a call either returns the right result, or reports that memory ran out and leaves
//! its arguments as its contract states, and then a second call returns the right result. The tests in `ample` are run
//! once: those of calls that do not allocate, and those that stop if memory runs out.
//!
//! What the tests of these crates share is in the crate `test_support`.
#![tactic(auto)]

#[cfg(test)]
mod ample;
#[cfg(test)]
mod changers;
#[cfg(test)]
mod conf_states;
#[cfg(test)]
mod json;
#[cfg(test)]
mod sets;
#[cfg(test)]
mod texts;
