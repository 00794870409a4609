//! Why a termination is not changed.

ghost use Rattle.std.specs.Prelude.{◌≡◌, IfErr, OnErr};
ghost use Rattle.gw_cmd.specs.declared.refusal.Refusal.TheVariants as refusal;
ghost use Rattle.gw_cmd.specs.Refused.{refusal_of};

use gw_base::{Code, NoMemory};
use gw_term::ApplyFault;
use std::alloc::AllocError;

/// Why a termination is not changed: an error for its reply, or no memory for the whole command.
#[derive(Drop)]
pub(crate) enum Refusal {
    /// The error, after which the tables are as they were.
    Code(Code),
    /// Out of memory.
    NoMemory,
}

impl From<NoMemory> for Refusal {
    ghost from_gives = { λ _ e. e ≡ refusal.NoMemory };

    fn from(_e: NoMemory) -> Refusal {
        Refusal::NoMemory
    }
}

impl From<AllocError> for Refusal {
    ghost from_gives = { λ _ e. e ≡ refusal.NoMemory };

    fn from(_e: AllocError) -> Refusal {
        Refusal::NoMemory
    }
}

impl From<ApplyFault> for Refusal {
    ghost from_gives = { λ fault e. e ≡ refusal_of fault };

    fn from(fault: ApplyFault) -> Refusal {
        match fault {
            ApplyFault::Code(code) => Refusal::Code(code),
            ApplyFault::NoMemory => Refusal::NoMemory,
        }
    }
}
