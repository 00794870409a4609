//! Why serving ended.

ghost use Rattle.std.specs.Prelude.{◌≡◌};
ghost use Rattle.gw_front.specs.declared.serve_fault.ServeFault.TheVariants.{NoMemory};

use std::alloc::AllocError;
use thiserror::Error;

/// Why serving ended. The gateway is as the last burst left it.
#[derive(Clone, Copy, Debug, Error)]
pub enum ServeFault {
    /// No socket could be bound to the address.
    #[error("the address cannot be bound")]
    Bind,
    /// The system refused to wait for datagrams.
    #[error("the socket cannot be waited for")]
    Poll,
    /// A datagram could not be received. The burst in hand was not executed.
    #[error("a datagram cannot be received")]
    Receive,
    /// Memory was refused before the first burst.
    #[error("no memory")]
    NoMemory,
    /// As many bursts in a row were dropped for memory as may be.
    #[error("no memory for burst after burst")]
    Full,
}

impl From<AllocError> for ServeFault {
    ghost from_gives = { λ _ e. e ≡ NoMemory };

    fn from(_e: AllocError) -> ServeFault {
        ServeFault::NoMemory
    }
}
