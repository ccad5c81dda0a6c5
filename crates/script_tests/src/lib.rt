//! Test vectors for the public calls of the crates for scripts, sessions and modes, with each allocation refused in turn
//! and, in `ample`, without (see the crate `core_tests`).
#![tactic(auto)]

#[cfg(test)]
mod ample;
#[cfg(test)]
mod files;
#[cfg(test)]
mod matching;
#[cfg(test)]
mod modes;
#[cfg(test)]
mod sessions;
