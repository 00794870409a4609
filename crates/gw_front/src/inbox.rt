//! The burst in hand: its datagrams, and who sent them.

ghost use Rattle.std.specs.Prelude.{◌≡◌, ◌==◌, ◌+◌, ◌<◌, ◌≤◌, ◌++◌, ◌∷◌, [], false, List, length, slice_get, IfOk, OnOk, IsTrue};
ghost use Rattle.gw_front.specs.Events.{Packet};
ghost use Rattle.gw_front.specs.Serving.{IsWithinLimits, burst_of};

use crate::controllers::{Controller, is_admitted};
use crate::exchange::Exchange;
use gw_base::{Items, NoMemory};
use gw_engine::{Datagram, Octets};
use std::alloc::{AllocError, Global};
use std::io;
use std::net::SocketAddr;

/// The most datagrams of a burst.
pub(crate) const LARGEST_BURST: u32 = 256;

/// How many bytes a datagram may have: what fits a UDP datagram over IPv4.
pub(crate) const LONGEST_DATAGRAM: usize = 65_507;

/// What became of a datagram that came.
#[derive(Clone, Copy)]
pub(crate) enum Receipt {
    /// It is one of the burst.
    Taken,
    /// It was dropped: it is from no controller.
    Stranger,
    /// It was dropped: it is too long.
    TooLong,
}

/// The burst in hand. A datagram's peer is the place of its sender.
#[derive(Drop)]
pub(crate) struct Inbox {
    datagrams: Vec<Datagram>,
    senders: Vec<SocketAddr>,
    is_refused: bool,
    ghost limits: { IsWithinLimits datagrams.items },
    ghost each_sent: { length datagrams.items ≤ length senders.items },
    ghost few: { length senders.items ≤ 256 },
}

impl Inbox {
    ghost use Rattle.gw_front.specs.Inboxes.{Holds, Gathers};

    /// No datagram, and room for those of a burst.
    pub(crate) fn new(alloc: Global) -> Result<Inbox, AllocError>
        ensures holds { IfOk result (λ inbox. Holds inbox []) }
        ensures senders { IfOk result (λ inbox. inbox.senders.items ≡ []) }
    {
        let room = LARGEST_BURST as usize;
        Ok(Inbox {
            datagrams: Vec::with_capacity(alloc, room)?,
            senders: Vec::with_capacity(alloc, room)?,
            is_refused: false,
        })
    }

    /// Whether nothing came.
    pub(crate) fn is_empty(&self) -> bool
        ensures none { (packets : List Packet) → Holds self.now packets → result ≡ (length packets == 0) }
        ensures senders { IsTrue result → self.now.senders.items ≡ [] }
    {
        !self.is_refused && self.senders.is_empty()
    }

    /// Nothing came yet. The room stays.
    pub(crate) fn clear(&mut self)
        ensures holds { Holds self.new [] }
        ensures senders { self.new.senders.items ≡ [] }
    {
        self.datagrams.clear();
        self.senders.clear();
        self.is_refused = false;
    }

    /// The datagram goes last, from the sender who goes last.
    fn push(&mut self, alloc: Global, bytes: &[u8], sender: SocketAddr) -> Result<(), AllocError>
        requires short { length bytes.now ≤ 65507 }
        requires room { length self.old.senders.items < 256 }
        ensures datagrams { OnOk result (self.new.datagrams.items ≡ self.old.datagrams.items
            ++ record { peer = length self.old.senders.items; bytes = bytes.now } ∷ []) }
        ensures senders { OnOk result (self.new.senders.items ≡ self.old.senders.items ++ sender ∷ []) }
        ensures mark { self.new.is_refused ≡ self.old.is_refused }
        ensures grown { length self.new.senders.items ≤ length self.old.senders.items + 1 }
    {
        let peer = self.senders.len() as u32;
        self.senders.push(sender)?;
        let bytes = Octets::from(Items::from_slice(alloc, bytes)?);
        self.datagrams.push(Datagram { peer, bytes })?;
        Ok(())
    }

    /// Takes a datagram from that sender: it goes last. Where memory is refused to it, the whole burst is refused.
    pub(crate) fn take(&mut self, alloc: Global, bytes: &[u8], sender: SocketAddr)
        requires short { length bytes.now ≤ 65507 }
        requires room { length self.old.senders.items < 256 }
        ensures taken { (packets : List Packet) → Holds self.old packets
            → Holds self.new (packets ++ record { bytes = bytes.now; address = sender } ∷ []) }
        ensures grown { length self.new.senders.items ≤ length self.old.senders.items + 1 }
    {
        if self.push(alloc, bytes, sender).is_err() {
            self.is_refused = true;
        }
    }

    /// Takes the next datagram of a network, if it is one of a controller and not too long; what became of it.
    ///
    /// # Errors
    ///
    /// Those of the network.
    pub(crate) fn receive<S: Exchange>(
        &mut self,
        alloc: Global,
        controllers: &[Controller],
        exchange: &mut S,
        buffer: &mut [u8],
    ) -> io::Result<Receipt>
        requires { length self.old.senders.items < 256 }
        ensures gathered { Gathers controllers.now (S.course exchange.old) (S.course exchange.new) self.old self.new }
        ensures grown { length self.new.senders.items ≤ length self.old.senders.items + 1 }
        ensures stranger { IfOk result (λ receipt. receipt ≡ Receipt.Stranger → self.new ≡ self.old) }
    {
        match exchange.receive(buffer) {
            Ok((count, sender)) => {
                if !is_admitted(controllers, sender) {
                    return Ok(Receipt::Stranger);
                }
                if count > LONGEST_DATAGRAM {
                    return Ok(Receipt::TooLong);
                }
                self.take(alloc, &buffer[..count], sender);
                Ok(Receipt::Taken)
            }
            Err(e) => Err(e),
        }
    }

    /// Who sent the datagram of that peer.
    pub(crate) fn sender_of(&self, peer: u32) -> Option<SocketAddr>
        ensures { result ≡ slice_get self.now.senders.items peer }
    {
        self.senders.get(peer as usize).copied()
    }

    /// How many datagrams the burst has.
    pub(crate) fn len(&self) -> usize
        ensures { result ≡ length self.now.datagrams.items }
    {
        self.datagrams.len()
    }

    /// The datagrams of the burst.
    ///
    /// # Errors
    ///
    /// Out of memory, where it was refused to one of them.
    pub(crate) fn burst(&self) -> Result<&[Datagram], NoMemory>
        ensures limits { IsWithinLimits self.now.datagrams.items }
        ensures burst { IfOk result (λ burst. burst.now ≡ self.now.datagrams.items) }
        ensures whole { OnOk result (self.now.is_refused ≡ false) }
    {
        if self.is_refused {
            return Err(NoMemory);
        }
        Ok(self.datagrams.as_slice())
    }
}
