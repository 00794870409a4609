//! Why a name does not join a context.

ghost use Rattle.std.specs.Prelude.{◌≡◌};
ghost use Rattle.gw_ctx.specs.declared.fault.JoinFault.TheVariants.{NoMemory};

use std::alloc::{AllocError, AllocFailed};
use thiserror::Error;

/// Why a name does not join a context, which is then as it was.
#[derive(Clone, Copy, Debug, PartialEq, Eq, Error)]
pub enum JoinFault {
    /// The context has as many members as it may have.
    #[error("the context is full")]
    Full,
    /// An allocation was refused.
    #[error("no memory")]
    NoMemory,
}

impl<T: Drop> From<AllocFailed<T>> for JoinFault {
    ghost from_gives = { λ _ e. e ≡ NoMemory };

    fn from(_e: AllocFailed<T>) -> JoinFault {
        JoinFault::NoMemory
    }
}

impl From<AllocError> for JoinFault {
    ghost from_gives = { λ _ e. e ≡ NoMemory };

    fn from(_e: AllocError) -> JoinFault {
        JoinFault::NoMemory
    }
}
