//! What a burst's items are to the kept replies.

ghost use Rattle.std.specs.Prelude.{◌≡◌};
ghost use Rattle.gw_kept.specs.Classes.{point_in};
ghost use Rattle.gw_kept.specs.Pairs.{key_by};

use crate::entry::RequestKey;
use gw_base::{Mid, TxId};
use gw_msg::{AckRange, Item, Sender};
use std::marker::Model;

/// The key of a request, borrowed from the message that it came in. Contracts see the key itself.
#[derive(Drop)]
pub struct BorrowedKey<'h> {
    mid: Sender<'h>,
    id: u32,
}

impl<'h> Model for BorrowedKey<'h> {
    ghost use Rattle.gw_kept.specs.declared.entry.RequestKey.{RequestKey as Key};

    ghost Value = { Key };

    ghost view = { λ a. record { mid = a.mid; id = a.id } };
}

impl<'h> BorrowedKey<'h> {
    /// That of a request of this sender under this number.
    pub fn new(mid: Sender<'h>, id: TxId) -> Self
        ensures { result ≡ key_by mid.entry id.0 }
    {
        BorrowedKey { mid, id: id.0 }
    }

    /// That of this sender and this number.
    #[inline(always)]
    pub(crate) fn by(mid: &'h Mid, id: u32) -> Self
        ensures { result ≡ key_by mid.now id }
    {
        BorrowedKey {
            mid: Sender::new(mid),
            id,
        }
    }

    /// The sender.
    #[inline(always)]
    pub fn mid(&self) -> &'h Mid
        ensures { result.now ≡ self.now.mid }
    {
        self.mid.mid()
    }

    /// The number of the transaction.
    #[inline(always)]
    pub fn id(&self) -> u32
        ensures { result ≡ self.now.id }
    {
        self.id
    }

    /// The key, copied.
    pub fn get(&self) -> RequestKey
        ensures { result ≡ self.now }
    {
        RequestKey {
            mid: *self.mid.mid(),
            id: self.id,
        }
    }
}

/// The ranges of an acknowledgement, borrowed from the message that it came in. Contracts see the ranges themselves.
#[derive(Drop)]
pub struct Ranges<'h> {
    ranges: &'h [AckRange],
}

impl<'h> Model for Ranges<'h> {
    ghost use Rattle.std.specs.Prelude.{List};
    ghost use Rattle.gw_msg.specs.declared.message.AckRange.{AckRange as Range};

    ghost Value = { List Range };

    ghost view = { λ a. a.ranges.now };
}

impl<'h> Ranges<'h> {
    /// The ranges, borrowed.
    pub fn new(ranges: &'h [AckRange]) -> Self
        ensures { result ≡ ranges.now }
    {
        Ranges { ranges }
    }

    /// The same, borrowed once more.
    pub fn again(&self) -> Ranges<'h>
        ensures { result ≡ self.now }
    {
        Ranges {
            ranges: self.ranges,
        }
    }

    /// The ranges, to look at.
    pub fn as_slice(&self) -> &'h [AckRange]
        ensures { result.now ≡ self.now }
    {
        self.ranges
    }
}

/// What an acknowledgement removes: who sent it, and the numbers that it has.
#[derive(Drop)]
pub struct Removal<'h> {
    /// Who sent it, byte for byte as sent.
    pub mid: Sender<'h>,
    /// The numbers of its transactions.
    pub ranges: Ranges<'h>,
}

impl<'h> Removal<'h> {
    /// The same, borrowed once more.
    pub fn again(&self) -> Removal<'h>
        ensures { result ≡ self.now }
    {
        Removal {
            mid: self.mid.again(),
            ranges: self.ranges.again(),
        }
    }
}

/// What an item of a burst is to the kept replies.
#[derive(Drop)]
pub enum Point<'h> {
    /// A request, by its key.
    Request(BorrowedKey<'h>),
    /// An acknowledgement.
    Ack(Removal<'h>),
    /// Another item, which has nothing to do with them.
    Nothing,
}

impl<'h> Point<'h> {
    /// What an item in a message of this sender is.
    pub fn of(mid: Sender<'h>, item: &'h Item<'_>) -> Point<'h>
        ensures { result ≡ point_in mid.entry item.now }
    {
        match item {
            Item::Request(request) => Point::Request(BorrowedKey::new(mid, request.id())),
            Item::Ack(ranges) => Point::Ack(Removal {
                mid,
                ranges: Ranges::new(ranges.as_slice()),
            }),
            Item::Ignored => Point::Nothing,
        }
    }
}
