//! Why a text gives no configuration.

ghost use Rattle.std.specs.Prelude.{◌≡◌};
ghost use Rattle.gw_config.specs.declared.fault.ConfigTextFault.TheVariants.{NoMemory};

use std::alloc::AllocError;
use thiserror::Error;

/// Why a text gives no configuration.
#[derive(Clone, Copy, Debug, PartialEq, Eq, Error)]
pub enum ConfigTextFault {
    /// The first line, from 1, that is of no form or repeats a keyword; where a keyword is missing, the number of lines
    /// plus 1.
    #[error("fault in line {0}")]
    Line(u32),
    /// An allocation was refused.
    #[error("no memory")]
    NoMemory,
}

impl From<AllocError> for ConfigTextFault {
    ghost from_gives = { λ _ e. e ≡ NoMemory };

    fn from(_e: AllocError) -> ConfigTextFault {
        ConfigTextFault::NoMemory
    }
}

impl From<gw_base::NoMemory> for ConfigTextFault {
    ghost from_gives = { λ _ e. e ≡ NoMemory };

    fn from(_e: gw_base::NoMemory) -> ConfigTextFault {
        ConfigTextFault::NoMemory
    }
}
