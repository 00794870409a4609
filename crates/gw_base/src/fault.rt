//! Why a call of this crate, or of one above it, gives no value.

use std::alloc::{AllocError, AllocFailed};
use thiserror::Error;

/// Why a text is no name, address or reference: the first of these that applies.
#[derive(Clone, Copy, Debug, PartialEq, Eq, Error)]
pub enum NameFault {
    /// The text has no bytes.
    #[error("the text is empty")]
    Empty,
    /// The text has more bytes than its form allows.
    #[error("the text is too long")]
    TooLong,
    /// The text is not of its form.
    #[error("the text is not of its form")]
    BadByte,
}

/// An allocation was refused.
#[derive(Clone, Copy, Debug, PartialEq, Eq, Error)]
#[error("no memory")]
pub struct NoMemory;

impl From<AllocError> for NoMemory {
    fn from(_e: AllocError) -> NoMemory {
        NoMemory
    }
}

impl<T: Drop> From<AllocFailed<T>> for NoMemory {
    fn from(_e: AllocFailed<T>) -> NoMemory {
        NoMemory
    }
}
