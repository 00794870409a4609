//! Why a text gives no message.

ghost use Rattle.std.specs.Prelude.{◌≡◌};
ghost use Rattle.gw_msg.specs.Reading.{fault_of};

use gw_text::ParseFault;
use thiserror::Error;

/// Why a text gives no message.
#[derive(Clone, Copy, Debug, PartialEq, Eq, Error)]
pub enum ReadFault {
    /// The text begins as a message of another version than 1, whatever follows.
    #[error("version not supported")]
    Version,
    /// The text does not begin so, and is no message.
    #[error("syntax error in message")]
    Syntax,
    /// An allocation was refused.
    #[error("no memory")]
    NoMemory,
}

impl From<ParseFault> for ReadFault {
    ghost from_gives = { λ part e. e ≡ fault_of part };

    fn from(part: ParseFault) -> ReadFault {
        match part {
            ParseFault::Syntax => ReadFault::Syntax,
            ParseFault::NoMemory => ReadFault::NoMemory,
        }
    }
}
