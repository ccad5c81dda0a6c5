//! Tests that are run without refused allocations: of calls that do not allocate, and of readers and writers that fail. A
//! test here that runs out of memory stops (`expect`), so no function returns early.

mod blocks;
mod command_line;
mod devices;
mod failing_devices;
mod messages;
mod script_files;
