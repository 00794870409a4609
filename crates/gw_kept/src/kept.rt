//! The kept replies: the last so many.

ghost use Rattle.std.specs.Prelude.{◌≡◌, ◌≤◌, None, length, IfOk, option_copied};
ghost use Rattle.gw_kept.specs.Classes.{keys_of, last_place};
ghost use Rattle.gw_kept.specs.Forgotten.{forgotten};
ghost use Rattle.gw_kept.specs.Pairs.{key_of, bytes_for, bytes_at, none_kept, with_pair, dropped_by, AreDistinct, IsBounded};
ghost use Rattle.gw_kept.specs.Rows.{kept_in};

use crate::entry::Entry;
use crate::point::BorrowedKey;
use crate::row::Row;
use gw_base::{Mid, NoMemory, TxId};
use gw_msg::AckRange;
use std::alloc::{AllocError, Global};
use std::marker::Model;

/// The last replies, for requests that are sent again. Contracts see the pairs, oldest first, and how many are kept
/// at most.
#[derive(Drop)]
pub struct Kept {
    pub(crate) row: Row,
}

impl Model for Kept {
    ghost use Rattle.gw_kept.specs.Pairs.{KeptList, coded_kept};
    ghost use Rattle.gw_kept.specs.Rows.{kept_in, IsWhole};

    ghost Value = { KeptList };

    ghost coded = { coded_kept };

    ghost view = { λ a. kept_in a.row };

    ghost invariant = { λ a. IsWhole a.row };
}

impl Kept {
    /// A list that holds nothing yet, and keeps the last `most` pairs: 1 to 4,096. All its room is made here.
    ///
    /// # Errors
    ///
    /// Out of memory.
    pub fn new(alloc: Global, most: u32) -> Result<Kept, NoMemory>
        requires some { 1 ≤ most }
        requires limit { most ≤ 4096 }
        ensures { IfOk result (λ kept. kept ≡ none_kept most) }
    {
        Ok(Kept {
            row: Row::new(alloc, most as usize)?,
        })
    }

    /// How many pairs there are: never more than are kept at most.
    pub fn len(&self) -> usize
        ensures value { result ≡ length self.now.pairs }
        ensures bounded { IsBounded self.now }
    {
        self.row.len()
    }

    /// Keeps a pair, whose key no kept pair has: the caller knows that. A full list hands back its oldest pair. It
    /// takes no memory. For k kept pairs it costs log k steps, or one where the key comes behind all others, and two
    /// moves of at most k bytes, or none where keys come in their order and leave in it.
    pub fn push(&mut self, entry: Entry) -> Option<Entry>
        requires { bytes_for (key_of entry) self.old.pairs ≡ None }
        ensures pairs { self.new ≡ with_pair self.old entry }
        ensures dropped { result ≡ dropped_by self.old entry }
    {
        let dropped = self.row.push(entry);
        self.row.settle();
        dropped
    }

    /// Removes each pair of this sender whose number is in one of the ranges, both ends included; the others keep
    /// their order. A range whose first number is above its last has none. It takes no memory. For n ranges and k
    /// pairs it costs n log k steps, two moves of at most k bytes for each range that names some, and one pass over
    /// the pairs where any goes.
    pub fn forget(&mut self, mid: &Mid, ranges: &[AckRange])
        ensures { self.new ≡ forgotten self.old mid.now ranges.now }
    {
        self.row.forget(mid, ranges);
        self.row.settle();
    }

    /// The reply that was sent to this sender under this number, if it is kept: log k steps for k pairs.
    pub fn find(&self, mid: &Mid, id: TxId) -> Option<&[u8]>
        ensures { option_copied result ≡ bytes_for (record { id = id.0; mid = mid.now }) self.now.pairs }
    {
        let key = BorrowedKey::by(mid, id.0);
        match self.place(&key) {
            Some(place) => self.reply_at(place),
            None => None,
        }
    }

    /// The reply at a place, counted from the oldest pair, as a `Source` of `classify` has it: one look.
    pub fn reply_at(&self, place: usize) -> Option<&[u8]>
        ensures { option_copied result ≡ bytes_at place self.now.pairs }
    {
        self.row.reply_at(place)
    }

    /// The place of a key's pair, counted from the oldest on: log k steps for k pairs.
    pub(crate) fn place(&self, key: &BorrowedKey<'_>) -> Option<usize>
        ensures place { result ≡ last_place key.now (keys_of self.now) }
        ensures distinct { AreDistinct self.now.pairs }
    {
        self.row.find(key)
    }

    /// How many pairs are kept at most.
    pub(crate) fn most(&self) -> usize
        ensures { result ≡ self.now.most }
    {
        self.row.most()
    }

    /// The same keys, without the replies.
    ///
    /// # Errors
    ///
    /// `AllocError` where its memory was refused.
    pub(crate) fn keys(&self, alloc: Global) -> Result<Row, AllocError>
        ensures keys { IfOk result (λ row. keys_of (kept_in row) ≡ keys_of self.now) }
        ensures most { IfOk result (λ row. row.most ≡ self.now.most) }
    {
        self.row.keys(alloc)
    }
}
