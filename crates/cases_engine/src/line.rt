//! A network that stands in for a socket: what comes is known beforehand, what goes is written down.

use cases_text::Page;
use gw_base::Items;
use gw_front::Exchange;
use std::alloc::{AllocError, Global};
use std::io::{self, Error, ErrorKind};
use std::net::{IpAddr, Ipv4Addr, SocketAddr};

/// What comes next.
#[derive(Drop)]
enum Coming {
    /// A datagram from that sender.
    Datagram {
        sender: SocketAddr,
        bytes: Items<u8>,
    },
    /// Nothing, until it was waited for.
    Nothing,
    /// A datagram that cannot be received.
    Broken,
}

/// What comes, in order, and what went.
#[derive(Drop)]
pub struct Line {
    coming: Vec<Coming>,
    next: usize,
    deaf: Option<SocketAddr>,
    last: Page,
    count: u64,
    written: Page,
}

/// The host of senders that have a number alone, which is their port.
const HOST: IpAddr = IpAddr::V4(Ipv4Addr::LOCALHOST);

/// The sender that a word names: by a number, or by an address and a port.
pub fn sender_of(word: &str) -> Option<SocketAddr> {
    match word.parse::<u16>() {
        Ok(port) => Some(SocketAddr::new(HOST, port)),
        Err(_) => word.parse::<SocketAddr>().ok(),
    }
}

/// Writes who a sender is, as a case names him.
fn write_sender(out: &mut Page, sender: SocketAddr) {
    if sender.ip() == HOST {
        out.number(u64::from(sender.port()));
    } else {
        out.display(&sender);
    }
}

impl Line {
    /// Nothing comes.
    pub fn new(alloc: Global) -> Line {
        Line {
            coming: Vec::new(alloc),
            next: 0,
            deaf: None,
            last: Page::new(alloc),
            count: 0,
            written: Page::new(alloc),
        }
    }

    /// A datagram comes from that sender.
    pub fn add_datagram(
        &mut self,
        alloc: Global,
        sender: SocketAddr,
        bytes: &[u8],
    ) -> Result<(), AllocError> {
        let bytes = Items::from_slice(alloc, bytes)?;
        self.coming.push(Coming::Datagram { sender, bytes })?;
        Ok(())
    }

    /// Nothing comes, until it was waited for.
    pub fn add_nothing(&mut self) -> Result<(), AllocError> {
        self.coming.push(Coming::Nothing)?;
        Ok(())
    }

    /// A datagram comes that cannot be received.
    pub fn add_broken(&mut self) -> Result<(), AllocError> {
        self.coming.push(Coming::Broken)?;
        Ok(())
    }

    /// Nothing can be sent to that sender.
    pub fn set_deaf(&mut self, sender: SocketAddr) {
        self.deaf = Some(sender);
    }

    /// Writes down what happened last, with how often it did.
    fn settle(&mut self) {
        if self.count > 1 {
            self.written.number(self.count);
            self.written.put(b" times ");
        }
        if self.count > 0 {
            self.written.put(self.last.as_bytes());
            self.written.put(b"\n");
        }
        self.count = 0;
    }

    /// Something happened.
    fn happens(&mut self, what: Page) {
        if self.last.as_bytes() != what.as_bytes() {
            self.settle();
            self.last = what;
        }
        self.count = self.count.saturating_add(1);
    }

    /// What happened, and how many of those who wait were not taken.
    pub fn write(&mut self, out: &mut Page) {
        self.settle();
        out.put(self.written.as_bytes());
        let left = self.coming.len().saturating_sub(self.next);
        if left > 0 {
            out.number(left as u64);
            out.put(b" left");
        }
    }
}

impl Exchange for Line {
    fn receive(&mut self, buffer: &mut [u8]) -> io::Result<(usize, SocketAddr)> {
        let Some(coming) = self.coming.get(self.next) else {
            return Err(Error::from(ErrorKind::WouldBlock));
        };
        match coming {
            Coming::Datagram { sender, bytes } => {
                let bytes = bytes.as_slice();
                let count = bytes.len().min(buffer.len());
                buffer[..count].copy_from_slice(&bytes[..count]);
                self.next = self.next.saturating_add(1);
                Ok((count, *sender))
            }
            Coming::Nothing => Err(Error::from(ErrorKind::WouldBlock)),
            Coming::Broken => {
                self.next = self.next.saturating_add(1);
                Err(Error::from(ErrorKind::BrokenPipe))
            }
        }
    }

    fn send(&mut self, bytes: &[u8], address: SocketAddr) -> io::Result<()> {
        let mut what = Page::new(self.written.alloc());
        let is_deaf = self.deaf == Some(address);
        what.put(if is_deaf { b"not to " } else { b"to " });
        write_sender(&mut what, address);
        what.put(b": ");
        what.message(bytes);
        self.happens(what);
        if is_deaf {
            return Err(Error::from(ErrorKind::PermissionDenied));
        }
        Ok(())
    }

    fn wait(&mut self) -> io::Result<()> {
        let mut what = Page::new(self.written.alloc());
        what.put(b"waits");
        self.happens(what);
        match self.coming.get(self.next) {
            Some(Coming::Nothing) => {
                self.next = self.next.saturating_add(1);
                Ok(())
            }
            _ => Err(Error::from(ErrorKind::BrokenPipe)),
        }
    }
}
