//! Script files in the format of cockroachdb's `datadriven` package, which etcd's raft packages use for their tests.
//!
//! A script is a list of items. An item is a comment, a blank, or a directive with its input and its expected output:
//!
//! ```text
//! # make 1 a voter                    a comment
//!                                     a blank
//! simple                              the directive line: a command and its arguments
//! v1                                  input
//! ----                                the separator
//! voters=(1)                          expected output
//! 1: StateProbe match=0 next=1
//!                                     the blank line that ends the item
//! ```
//!
//! A program runs each directive and compares its actual output with the expected one. Or it rewrites the script with
//! the actual outputs instead of the expected ones, which is how such tests are kept up to date.
//!
//! Two rules complete the format. A directive line that ends in a backslash is continued on the next line. Output with
//! blank lines is written between double separators:
//!
//! ```text
//! committed cfg=(1, 2) \
//!   idx=(3, 4)
//! ----
//! ----
//! the output, whose blank lines
//!
//! do not end the item
//! ----
//! ----
//! ```
//!
//! [`reader`](crate::reader) reads the items from a source, and reads at most 4,096 bytes beyond the item that it
//! returns. [`rewriter`](crate::rewriter) writes them to a sink. An error of either is permanent: nothing more is read
//! or written.
//!
//! The format is datadriven's. What is not is marked "own" in the comments: above all the grammar of a directive line,
//! the limit on the length of an input, and the error for a double separator that is not closed.
#![tactic(auto)]

mod arguments;
pub mod blocks;
mod command;
pub mod device;
pub mod draft;
mod draft_state;
pub mod expecting;
pub mod fault;
mod input;
pub mod item;
pub mod item_draft;
mod joined_lines;
pub mod laws;
pub mod line;
pub mod line_kinds;
pub mod lines;
mod raw_lines;
pub mod read_ahead;
pub mod reader;
pub mod rewriter;
mod room;
mod scan;
mod values;
pub mod writing;
