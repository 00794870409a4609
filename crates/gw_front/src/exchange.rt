//! What serving needs of a network: the next datagram, to send one, to wait for one.

ghost use Rattle.std.specs.Prelude.{◌≡◌, List, [], ◌∷◌, Option, None, ◌≤◌, length, take, IfOk, IfErr, OnErr};
ghost use Rattle.gw_front.specs.Events.{Packet, Event, came_all, sent_all, Happens};
ghost use Rattle.gw_front.specs.declared.serve_fault.ServeFault.TheVariants.{Full};

use crate::serve_fault::ServeFault;
use mio::net::UdpSocket;
use mio::{Events, Interest, Poll, Token};
use std::alloc::Global;
use std::io;
use std::net::{Net, SocketAddr};

/// A network as serving sees it: a socket, or what stands in for one.
pub trait Exchange {
    /// What happened so far, in order, where it is known: which datagrams were given, and which were handed over to be
    /// sent.
    ghost course: { Self → Option (List Event) } = { λ _. None };

    /// Gives the next datagram: its bytes go to the front of the buffer, as many as fit; how many, and who sent it.
    ///
    /// # Errors
    ///
    /// `WouldBlock` where none is there; others where none could be received.
    fn receive(&mut self, buffer: &mut [u8]) -> io::Result<(usize, SocketAddr)>
        ensures bound { IfOk result (λ r. r.0 ≤ length buffer.new) }
        ensures came { IfOk result (λ r. Happens (course self.old) (course self.new)
            (came_all (record { bytes = take r.0 buffer.new; address = r.1 } ∷ []))) }
        ensures nothing { OnErr result (Happens (course self.old) (course self.new) []) };

    /// Hands a datagram over to be sent to that address.
    ///
    /// # Errors
    ///
    /// It could not be sent.
    fn send(&mut self, bytes: &[u8], address: SocketAddr) -> io::Result<()>
        ensures { Happens (course self.old) (course self.new)
            (sent_all (record { bytes = bytes.now; address = address } ∷ [])) };

    /// Waits until a datagram may be there.
    ///
    /// # Errors
    ///
    /// The system refused to wait.
    fn wait(&mut self) -> io::Result<()>
        ensures { Happens (course self.old) (course self.new) [] };
}

/// The name that the socket has among what is waited for.
const SOCKET: Token = Token(0);

/// A bound socket with what waiting for it takes. No contract says what a socket gives or takes.
#[derive(Drop)]
pub(crate) struct Bound {
    socket: UdpSocket,
    poll: Poll,
    events: Events<Global>,
}

impl Bound {
    /// A socket bound to the address, under a poll that waits for its datagrams.
    pub(crate) fn bind(rt: &impl Net, alloc: Global, addr: SocketAddr) -> Result<Bound, ServeFault>
        ensures { IfErr result (λ fault. ¬ (fault ≡ Full)) }
    {
        let events = Events::with_capacity(alloc, 1)?;
        let Ok(mut socket) = UdpSocket::bind(rt, addr) else {
            return Err(ServeFault::Bind);
        };
        let Ok(poll) = Poll::new(rt) else {
            return Err(ServeFault::Poll);
        };
        match poll
            .registry()
            .register(&mut socket, SOCKET, Interest::READABLE)
        {
            Ok(()) => Ok(Bound {
                socket,
                poll,
                events,
            }),
            Err(_) => Err(ServeFault::Poll),
        }
    }
}

impl Exchange for Bound {
    fn receive(&mut self, buffer: &mut [u8]) -> io::Result<(usize, SocketAddr)> {
        self.socket.recv_from(buffer)
    }

    fn send(&mut self, bytes: &[u8], address: SocketAddr) -> io::Result<()> {
        self.socket.send_to(bytes, address)?;
        Ok(())
    }

    fn wait(&mut self) -> io::Result<()> {
        self.poll.poll(&mut self.events, None)
    }
}
