//! Why a board is not made, or a place not opened.

ghost use Rattle.std.specs.Prelude.{◌≡◌};
ghost use Rattle.gw_board.specs.declared.fault.OpenFault.TheVariants as open_fault;

use gw_base::NoMemory;
use gw_table::Tables;
use std::alloc::AllocError;
use thiserror::Error;

/// Why a board is not made. The tables come back as they were.
#[derive(Drop)]
pub enum BoardFault {
    /// An allocation was refused.
    NoMemory(Tables),
}

/// Why a place is not opened. The board is as it was.
#[derive(Clone, Copy, Debug, PartialEq, Eq, Error)]
pub enum OpenFault {
    /// The place is open or closed, or there is no such place.
    #[error("the place is not pending")]
    NotPending,
    /// The first earlier place, pending or open, whose keys its keys meet.
    #[error("place {0} comes first")]
    Meets(usize),
    /// An allocation was refused.
    #[error("no memory")]
    NoMemory,
}

impl From<NoMemory> for OpenFault {
    ghost from_gives = { λ _ e. e ≡ open_fault.NoMemory };

    fn from(_e: NoMemory) -> OpenFault {
        OpenFault::NoMemory
    }
}

impl From<AllocError> for OpenFault {
    ghost from_gives = { λ _ e. e ≡ open_fault.NoMemory };

    fn from(_e: AllocError) -> OpenFault {
        OpenFault::NoMemory
    }
}
