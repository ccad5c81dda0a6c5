//! Tests that are run without refused allocations: of calls that do not allocate, and of large values. A test here that
//! runs out of memory stops (`expect`), so no function returns early.

mod ascii_texts;
mod changes;
mod configurations;
mod large_sets;
mod sets_and_quorums;
mod shared_helpers;
mod texts;
mod transitions;
