//! Serving over the loopback. What is to wait when the gateway first looks is sent from within the line `listening`,
//! which it writes once it is bound: so each burst is what a test says, without a thread.

use crate::addresses::everywhere;
use crate::networks::OneSocket;
use crate::places::{file_of, free_address};
use crate::runs::{CONFIGURATION, Run};
use gw_program::{Stream, program};
use std::alloc::Global;
use std::fs::File;
use std::io::{self, Write};
use std::net::{IpAddr, Ipv4Addr, Ipv6Addr, Net, SocketAddr, UdpSocket};
use std::os::fd::OwnedFd;
use std::rt::Files;
use std::sync::Wait;
use std::test::Fail;
use std::thread::Threads;
use std::time::{Clock, Duration};
use std::{fs, thread};
use tests_wanted::{is_so, is_text};

/// A transaction, and its answer.
const ONE_REQUEST: &[u8] = b"MEGACO/1 [10.0.0.9]:2944 Transaction=1{Context=${Add=T/1,Add=$}}";

const ANSWERED: &[u8] = b"MEGACO/1 [10.0.0.1]:2944\nReply=1{Context=1{Add=T/1,Add=RTP/0}}";

/// Another, of another controller.
const OTHER: &[u8] = b"MEGACO/1 [10.0.0.8]:2944 Transaction=2{Context=${Add=T/2}}";

const OTHER_ANSWERED: &[u8] = b"MEGACO/1 [10.0.0.1]:2944\nReply=2{Context=2{Add=T/2}}";

/// The answer to what is no message.
const NO_MESSAGE: &[u8] = b"MEGACO/1 [10.0.0.1]:2944\nError=400{\"Syntax error in message\"}";

/// What the program says once it serves.
pub(crate) const SERVING: &[u8] = b"listening\n";

/// What it says where it cannot bind the address.
pub(crate) const NOT_BOUND: &[u8] = b"h248gw: serve bind\n";

/// How many addresses are tried.
const ATTEMPTS: u32 = 20;

/// The most datagrams of a burst.
const LARGEST_BURST: u32 = 256;

/// A datagram, and the socket that sends it.
#[derive(Clone, Copy)]
struct Sent<'a> {
    from: &'a UdpSocket,
    bytes: &'a [u8],
}

/// An output that sends datagrams to the server when it is first written to.
#[derive(Drop)]
struct Starter<'a> {
    server: SocketAddr,
    sent: &'a [Sent<'a>],
    written: Vec<u8>,
}

impl Write for Starter<'_> {
    fn write(&mut self, buf: &[u8]) -> io::Result<usize> {
        if self.written.is_empty() {
            for sent in self.sent {
                sent.from.send_to(sent.bytes, self.server)?;
            }
        }
        self.written.extend_from_slice(buf)?;
        Ok(buf.len())
    }

    fn flush(&mut self) -> io::Result<()> {
        Ok(())
    }
}

/// How a run serves: at an address of which host, for how many bursts, and which controller where there is one.
#[derive(Clone, Copy)]
struct Service<'a> {
    host: IpAddr,
    bursts: &'a str,
    controller: Option<&'a str>,
}

/// The words of a run.
fn words_of<'a>(
    alloc: Global,
    file: &'a str,
    listen: &'a str,
    service: Service<'a>,
) -> Result<Vec<&'a str>, Fail> {
    let mut words = vec![in alloc;
        "serve",
        file,
        "--listen",
        listen,
        "--bursts",
        service.bursts,
    ]?;
    if let Some(controller) = service.controller {
        words.push("--controller")?;
        words.push(controller)?;
    }
    Ok(words)
}

/// Runs the program on an address that nobody has, until it ends after so many bursts; whether it could bind the
/// address, which somebody may have taken meanwhile. It is sent these datagrams first, and says this.
fn is_served<R: Files + Net + Wait + Threads + Clock + Sync + AllocGlobal>(
    rt: &R,
    service: Service<'_>,
    sent: &[Sent<'_>],
    said: &[u8],
) -> Result<bool, Fail> {
    let server = free_address(rt, service.host)?;
    let file = file_of(rt, CONFIGURATION)?;
    let listen = format!(in rt.alloc(); "{server}")?;
    let words = words_of(rt.alloc(), file.as_str(), listen.as_str(), service)?;
    let mut out = Starter {
        server,
        sent,
        written: Vec::new(rt.alloc()),
    };
    let mut input = b"".as_slice();
    let mut err = Stream {
        stream: Vec::new(rt.alloc()),
    };
    let status = program(rt, words.as_slice(), &mut input, &mut out, &mut err);
    fs::remove_file(rt, file.as_str())?;
    if err.stream.as_slice() == NOT_BOUND {
        return Ok(false);
    }
    is_so(status == 0 && err.stream.is_empty(), "a run that is done")?;
    is_text(out.written.as_slice(), said)?;
    Ok(true)
}

/// Serves datagrams that wait when it begins, and says this.
fn serves_so<R: Files + Net + Wait + Threads + Clock + Sync + AllocGlobal>(
    rt: &R,
    service: Service<'_>,
    sent: &[Sent<'_>],
    said: &[u8],
) -> Result<(), Fail> {
    for _attempt in 0..ATTEMPTS {
        if is_served(rt, service, sent, said)? {
            return Ok(());
        }
    }
    Err(Fail::new("an address that nobody has"))
}

/// Serves so many bursts of datagrams of every sender.
fn serves<R: Files + Net + Wait + Threads + Clock + Sync + AllocGlobal>(
    rt: &R,
    host: IpAddr,
    bursts: &str,
    sent: &[Sent<'_>],
    said: &[u8],
) -> Result<(), Fail> {
    let service = Service {
        host,
        bursts,
        controller: None,
    };
    serves_so(rt, service, sent, said)
}

/// A socket of the loopback.
pub(crate) fn client(rt: &impl Net, host: IpAddr) -> Result<UdpSocket, Fail> {
    let client = rt.bind_udp(SocketAddr::from((host, 0)))?;
    client.set_read_timeout(Some(Duration::from_millis(20)))?;
    Ok(client)
}

/// The answers that wait at a socket are so many, each of them this.
fn has_answers(client: &UdpSocket, count: u32, answer: &[u8]) -> Result<(), Fail> {
    let mut buffer = [0u8; 1024];
    for _ in 0..count {
        let (length, _) = client.recv_from(&mut buffer)?;
        is_text(&buffer[..length], answer)?;
    }
    is_so(client.recv_from(&mut buffer).is_err(), "no more answers")
}

/// A datagram of so many bytes, white space behind the text.
fn padded(alloc: Global, text: &[u8], length: usize) -> Result<Vec<u8>, Fail> {
    let mut bytes = Vec::with_capacity(alloc, length)?;
    bytes.extend_from_slice(text)?;
    bytes.resize(length, b' ')?;
    Ok(bytes)
}

pub(crate) const IPV4: IpAddr = IpAddr::V4(Ipv4Addr::LOCALHOST);

pub(crate) const IPV6: IpAddr = IpAddr::V6(Ipv6Addr::LOCALHOST);

/// Another address of the loopback.
pub(crate) fn near() -> IpAddr {
    IpAddr::V4(Ipv4Addr::new(127, 0, 0, 2))
}

#[test]
fn two_senders_in_one_burst(rt: HostRuntime) -> Result<(), Fail> {
    let (one, other) = (client(&rt, IPV4)?, client(&rt, IPV4)?);
    let sent = [
        Sent {
            from: &one,
            bytes: ONE_REQUEST,
        },
        Sent {
            from: &other,
            bytes: OTHER,
        },
    ];
    serves(&rt, IPV4, "1", &sent, SERVING)?;
    has_answers(&one, 1, ANSWERED)?;
    has_answers(&other, 1, OTHER_ANSWERED)
}

#[test]
fn two_senders_on_two_addresses(rt: HostRuntime) -> Result<(), Fail> {
    let (one, near) = (client(&rt, IPV4)?, client(&rt, near())?);
    let sent = [
        Sent {
            from: &one,
            bytes: ONE_REQUEST,
        },
        Sent {
            from: &near,
            bytes: OTHER,
        },
    ];
    serves(&rt, IPV4, "1", &sent, SERVING)?;
    has_answers(&one, 1, ANSWERED)?;
    has_answers(&near, 1, OTHER_ANSWERED)
}

#[test]
fn a_controller_and_a_stranger(rt: HostRuntime) -> Result<(), Fail> {
    let (stranger, controller) = (client(&rt, IPV4)?, client(&rt, near())?);
    let sent = [
        Sent {
            from: &stranger,
            bytes: OTHER,
        },
        Sent {
            from: &controller,
            bytes: ONE_REQUEST,
        },
    ];
    let service = Service {
        host: IPV4,
        bursts: "1",
        controller: Some("127.0.0.2"),
    };
    let said = b"listening\ndropped 1 datagrams: not a controller\n";
    serves_so(&rt, service, &sent, said)?;
    has_answers(&stranger, 0, b"")?;
    has_answers(&controller, 1, ANSWERED)
}

/// Sends again when the first answer has come, so that a burst follows another; whether each answer is the one that is
/// wanted.
fn is_answered_twice(client: &UdpSocket) -> io::Result<bool> {
    let mut buffer = [0u8; 1024];
    let (length, server) = client.recv_from(&mut buffer)?;
    let is_first = &buffer[..length] == ANSWERED;
    client.send_to(OTHER, server)?;
    let (length, _) = client.recv_from(&mut buffer)?;
    Ok(is_first && &buffer[..length] == OTHER_ANSWERED)
}

#[test]
fn two_bursts(rt: HostRuntime) -> Result<(), Fail> {
    let client = client(&rt, IPV4)?;
    client.set_read_timeout(Some(Duration::from_secs(10)))?;
    let sent = [Sent {
        from: &client,
        bytes: ONE_REQUEST,
    }];
    let (served, each_answered) = thread::join(
        &rt,
        || serves(&rt, IPV4, "2", &sent, SERVING),
        || is_answered_twice(&client),
    );
    served?;
    is_so(each_answered?, "an answer in each burst")
}

/// How many datagrams wait when one more is sent than a burst may have: all of them, or as many as a socket's buffer
/// holds here.
fn waiting(rt: &impl Net) -> Result<u32, Fail> {
    let (held, sender) = (client(rt, IPV4)?, client(rt, IPV4)?);
    let address = held.local_addr()?;
    for _ in 0..=LARGEST_BURST {
        sender.send_to(ONE_REQUEST, address)?;
    }
    let mut buffer = [0u8; 1024];
    for count in 0..=LARGEST_BURST {
        if held.recv_from(&mut buffer).is_err() {
            return Ok(count);
        }
    }
    Ok(LARGEST_BURST + 1)
}

#[test]
fn one_more_than_a_burst_waits(rt: HostRuntime) -> Result<(), Fail> {
    let waiting = waiting(&rt)?;
    let client = client(&rt, IPV4)?;
    let sent = [Sent {
        from: &client,
        bytes: ONE_REQUEST,
    }; 257];
    serves(&rt, IPV4, "1", &sent, SERVING)?;
    has_answers(&client, waiting.min(LARGEST_BURST), ANSWERED)?;
    if waiting > LARGEST_BURST {
        serves(&rt, IPV4, "2", &sent, SERVING)?;
        has_answers(&client, waiting, ANSWERED)?;
    }
    Ok(())
}

#[test]
fn datagrams_of_every_length(rt: HostRuntime) -> Result<(), Fail> {
    let (none, some, all) = (client(&rt, IPV4)?, client(&rt, IPV4)?, client(&rt, IPV4)?);
    let longer = padded(rt.alloc(), ONE_REQUEST, 1_473)?;
    let longest = padded(rt.alloc(), OTHER, 65_507)?;
    let sent = [
        Sent {
            from: &none,
            bytes: b"",
        },
        Sent {
            from: &some,
            bytes: longer.as_slice(),
        },
        Sent {
            from: &all,
            bytes: longest.as_slice(),
        },
    ];
    serves(&rt, IPV4, "1", &sent, SERVING)?;
    has_answers(&none, 1, NO_MESSAGE)?;
    has_answers(&some, 1, ANSWERED)?;
    has_answers(&all, 1, OTHER_ANSWERED)
}

#[test]
fn a_datagram_that_is_too_long(rt: HostRuntime) -> Result<(), Fail> {
    let (long, good) = (client(&rt, IPV6)?, client(&rt, IPV6)?);
    let bytes = padded(rt.alloc(), ONE_REQUEST, 65_508)?;
    let sent = [
        Sent {
            from: &long,
            bytes: bytes.as_slice(),
        },
        Sent {
            from: &good,
            bytes: ONE_REQUEST,
        },
    ];
    let said = b"listening\ndropped 1 datagrams: too long\n";
    serves(&rt, IPV6, "1", &sent, said)?;
    has_answers(&long, 0, b"")?;
    has_answers(&good, 1, ANSWERED)
}

/// The program serves two bursts over the network of a runtime, and ends with a fault: this was said, and this is its
/// line.
fn fails_at<R: Files + Net + Wait + Threads + Clock + Sync + AllocGlobal>(
    rt: &R,
    said: &[u8],
    line: &[u8],
) -> Result<(), Fail> {
    let file = file_of(rt, CONFIGURATION)?;
    Run::of(rt, &["serve", file.as_str(), "--bursts", "2"]).fails_behind(said, line)?;
    Ok(fs::remove_file(rt, file.as_str())?)
}

// The system refuses to wait for a file.
#[test]
fn a_socket_that_cannot_be_waited_for(rt: HostRuntime) -> Result<(), Fail> {
    let socket = UdpSocket::from(OwnedFd::from(File::open(&rt, "/dev/null")?));
    let network = OneSocket {
        rt: &rt,
        address: everywhere(),
        socket: &socket,
    };
    fails_at(&network, b"", b"h248gw: serve poll\n")
}

// A socket with one peer learns when that has gone, at the receipt behind what was sent to it. The peer has another
// address of the loopback, at the client's port, so that nobody takes it meanwhile.
#[test]
fn a_datagram_that_cannot_be_received(rt: HostRuntime) -> Result<(), Fail> {
    let (server, client) = (client(&rt, IPV4)?, client(&rt, IPV4)?);
    let peer = rt.bind_udp(SocketAddr::from((near(), client.local_addr()?.port())))?;
    client.send_to(ONE_REQUEST, server.local_addr()?)?;
    peer.send_to(OTHER, server.local_addr()?)?;
    server.connect(peer.local_addr()?)?;
    drop(peer);
    let network = OneSocket {
        rt: &rt,
        address: everywhere(),
        socket: &server,
    };
    fails_at(&network, SERVING, b"h248gw: serve receive\n")?;
    has_answers(&client, 1, ANSWERED)
}
