//! The error of a call that fails only when memory runs out.
use std::alloc::{AllocError, AllocFailed};
use thiserror::Error;

/// An allocation failed. Unless the call documents otherwise, its arguments are unchanged.
#[derive(Clone, Copy, Debug, PartialEq, Eq, Error)]
#[error("out of memory")]
pub struct NoMemory;

impl From<AllocError> for NoMemory {
    fn from(_error: AllocError) -> NoMemory {
        NoMemory
    }
}

impl<T: Drop> From<AllocFailed<T>> for NoMemory {
    fn from(_error: AllocFailed<T>) -> NoMemory {
        NoMemory
    }
}
