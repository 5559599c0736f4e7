//! Want of memory, the one refusal that no input explains.

use std::alloc::{AllocError, AllocFailed};
use thiserror::Error;

/// The allocator refused. It is a variant of its own wherever a call may answer it.
#[derive(Clone, Copy, Debug, PartialEq, Eq, Error)]
#[error("out of memory")]
pub struct NoMemory;

impl From<AllocError> for NoMemory {
    fn from(_error: AllocError) -> NoMemory {
        NoMemory
    }
}

impl<T: Drop> From<AllocFailed<T>> for NoMemory {
    fn from(_error: AllocFailed<T>) -> NoMemory {
        NoMemory
    }
}
