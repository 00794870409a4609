//! Why a replay ends before its input.

ghost use Rattle.std.specs.Prelude.{◌≡◌};
ghost use Rattle.gw_front.specs.declared.replay_fault.ReplayFault.TheVariants.{NoMemory};

use std::alloc::{AllocError, AllocFailed};
use thiserror::Error;

/// Why a replay ends before its input. The bursts before the fault were executed, and their answers are out whole.
#[derive(Clone, Copy, Debug, PartialEq, Eq, Error)]
pub enum ReplayFault {
    /// A line where a header is to stand is none, or has more than 32 bytes before its line feed; or another byte than
    /// a line feed stands behind the bytes of a datagram. Nothing of its burst was executed.
    #[error("bad header")]
    BadHeader,
    /// The input ends inside a record. Nothing of its burst was executed.
    #[error("truncated")]
    Truncated,
    /// A datagram has more than 65,507 bytes, or is the 257th of its burst. Nothing of its burst was executed.
    #[error("too long")]
    TooLong,
    /// A read failed, or there were 4,294,967,295 of them. Nothing of the burst in hand was executed.
    #[error("the input could not be read")]
    Read,
    /// A write failed or took 0 bytes. The burst in hand was executed, and a front of the text of its answers is out.
    #[error("the output could not be written")]
    Write,
    /// An allocation was refused. Nothing of the burst in hand was executed.
    #[error("no memory")]
    NoMemory,
}

impl From<AllocError> for ReplayFault {
    ghost from_gives = { λ _ e. e ≡ NoMemory };

    fn from(_e: AllocError) -> ReplayFault {
        ReplayFault::NoMemory
    }
}

impl<T: Drop> From<AllocFailed<T>> for ReplayFault {
    ghost from_gives = { λ _ e. e ≡ NoMemory };

    fn from(_e: AllocFailed<T>) -> ReplayFault {
        ReplayFault::NoMemory
    }
}

impl From<gw_base::NoMemory> for ReplayFault {
    ghost from_gives = { λ _ e. e ≡ NoMemory };

    fn from(_e: gw_base::NoMemory) -> ReplayFault {
        ReplayFault::NoMemory
    }
}
