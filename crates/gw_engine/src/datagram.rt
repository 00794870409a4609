//! What comes from a controller, and what goes back.

ghost use Rattle.std.specs.Prelude.{◌≡◌, IfOk};

use crate::octets::Octets;
use gw_base::Items;
use std::alloc::{AllocError, Global};

/// A datagram: bytes from, or to, a peer.
pub struct Datagram {
    /// Who it is from, or for: any number that the caller chose.
    pub peer: u32,
    /// At most 65,507 bytes where it comes in, at most 16,384 where it is an answer.
    pub bytes: Octets,
}

// Written out, so that a function that drops a datagram does so by one call.
impl Drop for Datagram {
    fn drop(self) {
        let Datagram { peer: _, bytes: _ } = self;
    }
}

impl Datagram {
    /// Its bytes alone.
    ///
    /// # Errors
    ///
    /// None.
    pub fn into_bytes(self, _alloc: Global) -> Result<Items<u8>, AllocError>
        ensures { IfOk result (λ bytes. bytes ≡ self.bytes) }
    {
        let Datagram { peer: _, bytes } = self;
        Ok(bytes.into_block())
    }
}
