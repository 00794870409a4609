//! A reply that is kept, and the key by which a repeat finds it.

ghost use Rattle.std.specs.Prelude.{◌≡◌};
ghost use Rattle.gw_kept.specs.Order.{key_cmp};
ghost use Rattle.gw_kept.specs.Pairs.{key_by, key_of};

use gw_base::{Items, Mid, TxId};
use std::alloc::Global;
use std::cmp::Ordering;

/// A reply that is kept for repeats (own to this profile; by RFC 3525, Annex D.1, a repeat is not executed again).
#[derive(Drop)]
pub struct Entry {
    /// The sender of the request, as sent.
    pub mid: Mid,
    /// The number of the transaction.
    pub id: TxId,
    /// The message that was sent, whole.
    pub bytes: Items<u8>,
}

/// Who sent a request, and under which number: a repeat has the same.
#[derive(Clone, Copy, PartialEq, Eq, PartialOrd, Ord)]
pub struct RequestKey {
    /// The sender, byte for byte as sent.
    pub mid: Mid,
    /// The number of the transaction.
    pub id: u32,
}

impl RequestKey {
    /// A pair of this key, with an empty reply.
    pub(crate) fn alone(self, alloc: Global) -> Entry
        ensures { key_of result ≡ self }
    {
        Entry {
            mid: self.mid,
            id: TxId(self.id),
            bytes: Items::new(alloc),
        }
    }
}

impl Entry {
    /// How the key of the pair stands to another.
    #[inline(always)]
    pub(crate) fn compare_key(&self, mid: &Mid, id: u32) -> Ordering
        ensures { result ≡ key_cmp (key_of self.now) (key_by mid.now id) }
    {
        self.mid.cmp(mid).then(self.id.0.cmp(&id))
    }

    /// The key of the pair.
    pub(crate) fn key(&self) -> RequestKey
        ensures { result ≡ key_of self.now }
    {
        RequestKey {
            id: self.id.0,
            mid: self.mid,
        }
    }
}
