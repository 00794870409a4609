//! Why a configuration makes no gateway.

ghost use Rattle.std.specs.Prelude.{◌≡◌};
ghost use Rattle.gw_engine.specs.declared.fault.ConfigFault.TheVariants.{NoMemory};

use std::alloc::AllocFailed;
use thiserror::Error;

/// A limit of a configuration.
#[derive(Clone, Copy, Debug, PartialEq, Eq)]
pub enum LimitName {
    /// `contexts`: 1 to 65,535.
    Contexts,
    /// `slots`: 0 to 4,096.
    Slots,
    /// `members`: 1 to 64.
    Members,
    /// `keep`: 1 to 4,096.
    Keep,
    /// How many terminations are named: 0 to 65,535.
    Terms,
}

/// Why a configuration makes no gateway: the first of these that applies, limits in the order of `LimitName`.
#[derive(Clone, Copy, Debug, PartialEq, Eq, Error)]
pub enum ConfigFault {
    /// A number is outside its limit.
    #[error("the limit {0:?} is out of range")]
    LimitOutOfRange(LimitName),
    /// A termination's name is `ROOT` in any case, or begins with `RTP/`.
    #[error("a termination has a reserved name")]
    ReservedName,
    /// Two terminations have one name.
    #[error("a termination is named twice")]
    DuplicateName,
    /// An allocation was refused.
    #[error("no memory")]
    NoMemory,
}

impl From<gw_base::NoMemory> for ConfigFault {
    ghost from_gives = { λ _ e. e ≡ NoMemory };

    fn from(_e: gw_base::NoMemory) -> ConfigFault {
        ConfigFault::NoMemory
    }
}

impl<T: Drop> From<AllocFailed<T>> for ConfigFault {
    ghost from_gives = { λ _ e. e ≡ NoMemory };

    fn from(_e: AllocFailed<T>) -> ConfigFault {
        ConfigFault::NoMemory
    }
}
