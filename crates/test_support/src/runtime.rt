//! What a helper of a test needs of the runtime.
use std::alloc::AllocGlobal;
use std::process::Abort;

/// Ends a test that cannot go on, and gives an allocator.
pub trait Runtime: Abort + AllocGlobal {}

impl<R: Abort + AllocGlobal> Runtime for R {}
