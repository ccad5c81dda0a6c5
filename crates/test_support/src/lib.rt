//! What the tests of several crates share: calls that are made again if memory ran out, values that are read of their
//! texts, and comparisons.
#![tactic(auto)]

pub mod appending;
pub mod equal;
pub mod restoring;
pub mod runtime;
pub mod shown;
mod twice;
