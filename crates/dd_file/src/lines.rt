//! Reading an input line by line (own).
//!
//! ```text
//! "v1\r\nv2\n\nl3"    has the lines    "v1", "v2", "" and "l3"
//! ```
//!
//! A newline ends a line, and one carriage return at the end of a line is dropped. What follows the last newline is a
//! line too, unless it is empty.
use crate::line::LineDraft;
use crate::read_ahead::Parts;

/// Reads the lines of an input from a [`Source`](crate::device::Source), with at most 4,096 bytes read ahead.
pub type Lines = Parts<LineDraft>;
