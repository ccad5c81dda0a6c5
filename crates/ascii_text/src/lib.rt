//! White space, tokens, lines and numbers in a text of bytes, and calls that append to a text.
//!
//! Configurations, plans and script files are all read from bytes, so tokens and lines are defined here once. White
//! space is the six bytes 9 to 13 and 32. A token is a run of bytes that are not white space. A line ends before its
//! newline, and one carriage return at its end is dropped. A number is one or more decimal digits whose value is at
//! most 2^64-1. Bytes above 127 have no meaning of their own: they are part of a token or a line like any other byte.
//!
//! ```text
//! "simple v1\r\nv2\n"
//!    first token  simple
//!    first line   simple v1
//!    the rest     v2\n
//! ```
//!
//! A parser takes one token after another off the text that is left:
//!
//! ```text
//! let (token, rest) = next_token(b"simple v1")?;   // "simple" and " v1"
//! let (token, rest) = next_token(rest)?;           // "v1" and "", in which no token is left
//! ```
#![tactic(auto)]

pub mod append;
pub mod lines;
mod no_memory;
pub mod number;
pub mod position;
pub mod tokens;
pub mod white_space;

pub use no_memory::NoMemory;
