//! Tests that are run without refused allocations: of all pairs of small configurations, of errors, and of calls that do
//! not allocate. A test here that runs out of memory stops (`expect`), so no function returns early.

mod configurations;
mod pairs;
mod paths_while_down;
mod plans;
mod stages;
mod targets;
