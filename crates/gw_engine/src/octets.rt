//! The bytes of a datagram.

ghost use Rattle.std.specs.Prelude.{◌≡◌, ◌==◌, length};

use gw_base::Items;
use std::marker::Model;

/// The bytes of a datagram, in a block of their own. Contracts see the bytes.
#[derive(Drop)]
pub struct Octets {
    block: Items<u8>,
}

impl Model for Octets {
    ghost use Rattle.std.specs.Prelude.{ℕ, List};

    ghost Value = { List ℕ };

    ghost view = { λ o. o.block };
}

impl Octets {
    /// The bytes in order.
    #[inline(always)]
    pub fn as_slice(&self) -> &[u8]
        ensures { result.now ≡ self.now }
    {
        self.block.as_slice()
    }

    /// How many bytes there are.
    #[inline]
    pub fn len(&self) -> usize
        ensures { result ≡ length self.now }
    {
        self.block.len()
    }

    /// Whether there is no byte.
    pub fn is_empty(&self) -> bool
        ensures { result ≡ (length self.now == 0) }
    {
        self.block.is_empty()
    }

    /// The block.
    pub(crate) fn into_block(self) -> Items<u8>
        ensures { result ≡ self }
    {
        self.block
    }
}

impl From<Items<u8>> for Octets {
    ghost from_gives = { λ block octets. octets ≡ block };

    #[inline(always)]
    fn from(block: Items<u8>) -> Octets {
        Octets { block }
    }
}
