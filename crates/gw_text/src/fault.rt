//! Why a scan takes nothing, and why a part of a message is not read.

ghost use Rattle.std.specs.Prelude.{◌≡◌};
ghost use Rattle.gw_text.specs.declared.fault.ParseFault.TheVariants.{NoMemory, Syntax};

use gw_base::NameFault;
use std::alloc::AllocError;
use thiserror::Error;

/// Why a scan takes nothing. The cursor stays where it was.
#[derive(Clone, Copy, Debug, PartialEq, Eq, Error)]
pub enum ScanFault {
    /// What is looked for does not stand at the cursor.
    #[error("something else is expected here")]
    Unexpected,
    /// A `{` lies deeper than is allowed.
    #[error("braces lie too deep")]
    TooDeep,
    /// The digits at the cursor are too many, or write too large a number: for `uint32` more than ten digits or no
    /// 32-bit number, for `number` more than its own limits on the two.
    #[error("the number is too large")]
    Overflow,
}

/// Why a part of a message is not read.
#[derive(Clone, Copy, Debug, PartialEq, Eq, Error)]
pub enum ParseFault {
    /// No such part stands there.
    #[error("syntax error in a part of a message")]
    Syntax,
    /// An allocation was refused.
    #[error("no memory")]
    NoMemory,
}

impl From<AllocError> for ParseFault {
    ghost from_gives = { λ _ e. e ≡ NoMemory };

    fn from(_e: AllocError) -> ParseFault {
        ParseFault::NoMemory
    }
}

impl From<ScanFault> for ParseFault {
    ghost from_gives = { λ _ e. e ≡ Syntax };

    fn from(_e: ScanFault) -> ParseFault {
        ParseFault::Syntax
    }
}

impl From<NameFault> for ParseFault {
    ghost from_gives = { λ _ e. e ≡ Syntax };

    fn from(_e: NameFault) -> ParseFault {
        ParseFault::Syntax
    }
}
