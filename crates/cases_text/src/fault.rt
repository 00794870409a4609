//! What is wrong with a case.

use std::alloc::{AllocError, AllocFailed};

/// Why a case has no answer.
#[derive(Clone, Copy)]
pub enum CaseFault {
    /// The line begins with no call of the program.
    Call,
    /// What follows the call is of no form that it takes.
    Form,
    /// A `%` stands before neither two hexadecimal digits nor a run in brackets.
    Escape,
    /// An allocation was refused.
    NoMemory,
}

impl CaseFault {
    /// What stands below the case.
    pub fn text(self) -> &'static [u8] {
        match self {
            CaseFault::Call => b"! no such call",
            CaseFault::Form => b"! a case of another form",
            CaseFault::Escape => b"! a percent sign that stands for nothing",
            CaseFault::NoMemory => b"! no memory",
        }
    }
}

impl From<AllocError> for CaseFault {
    fn from(_e: AllocError) -> CaseFault {
        CaseFault::NoMemory
    }
}

impl<T: Drop> From<AllocFailed<T>> for CaseFault {
    fn from(_e: AllocFailed<T>) -> CaseFault {
        CaseFault::NoMemory
    }
}
