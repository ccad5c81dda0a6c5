//! Test vectors for the public calls of the crates for plans: what a plan is made for, paths by each strategy, how their
//! steps are applied, what is printed and read of them, and what to do next on their way. Each allocation is refused in turn and, in `ample`, none is
//! (see the crate `core_tests`).
#![tactic(auto)]

#[cfg(test)]
mod actions;
#[cfg(test)]
mod ample;
#[cfg(test)]
mod assertions;
#[cfg(test)]
mod paths;
#[cfg(test)]
mod plan_inputs;
#[cfg(test)]
mod plans;
#[cfg(test)]
mod printed_paths;
#[cfg(test)]
mod stall_notes;
