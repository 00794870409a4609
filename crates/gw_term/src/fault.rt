//! Why descriptors do nothing to a termination.

ghost use Rattle.std.specs.Prelude.{◌≡◌};
ghost use Rattle.gw_term.specs.declared.fault.ApplyFault.TheVariants.{NoMemory as MemoryFault};

use gw_base::{Code, NoMemory};
use std::alloc::AllocError;
use thiserror::Error;

/// Why descriptors do nothing to a termination, which is then as it was.
#[derive(Clone, Copy, Debug, Error)]
pub enum ApplyFault {
    /// `InsufficientResources`: a list would hold more than 32 properties.
    #[error("more properties than a list may hold")]
    Code(Code),
    /// An allocation was refused.
    #[error("no memory")]
    NoMemory,
}

impl From<AllocError> for ApplyFault {
    ghost from_gives = { λ _ e. e ≡ MemoryFault };

    fn from(_e: AllocError) -> ApplyFault {
        ApplyFault::NoMemory
    }
}

impl From<NoMemory> for ApplyFault {
    ghost from_gives = { λ _ e. e ≡ MemoryFault };

    fn from(_e: NoMemory) -> ApplyFault {
        ApplyFault::NoMemory
    }
}
