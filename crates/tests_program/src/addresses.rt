//! The address that `serve` binds.

use crate::networks::OneSocket;
use crate::places::file_of;
use crate::runs::{CONFIGURATION, Run};
use crate::serving::{IPV4, IPV6, NOT_BOUND, SERVING, client, near};
use std::fs;
use std::net::{IpAddr, Ipv4Addr, Ipv6Addr, Net, SocketAddr};
use std::test::Fail;

#[test]
fn an_address_that_cannot_be_bound(rt: HostRuntime) -> Result<(), Fail> {
    let file = file_of(&rt, CONFIGURATION)?;
    let taken = rt.bind_udp(SocketAddr::from((IPV4, 0)))?;
    let own = format!(in rt.alloc(); "{}", taken.local_addr()?)?;
    for listen in [
        own.as_str(),
        "127.0.0.1",
        "localhost:2944",
        "10.0.0.1:2944 ",
        "",
    ] {
        Run::of(&rt, &["serve", file.as_str(), "--listen", listen]).fails(NOT_BOUND)?;
    }
    Ok(fs::remove_file(&rt, file.as_str())?)
}

/// The address that is bound where the words name none.
pub(crate) fn everywhere() -> SocketAddr {
    SocketAddr::new(IpAddr::V4(Ipv4Addr::UNSPECIFIED), 2944)
}

// Of each address, the family and the port are those that the words name.
#[test]
fn the_address_that_is_bound(rt: HostRuntime) -> Result<(), Fail> {
    let file = file_of(&rt, CONFIGURATION)?;
    let socket = client(&rt, IPV4)?;
    let network = OneSocket {
        rt: &rt,
        address: SocketAddr::new(IPV4, 2945),
        socket: &socket,
    };
    let words = [
        "serve",
        file.as_str(),
        "--listen",
        "127.0.0.1:2945",
        "--bursts",
        "0",
    ];
    Run::of(&network, words.as_slice()).explains(SERVING)?;
    let network = OneSocket {
        rt: &rt,
        address: SocketAddr::new(near(), 0),
        socket: &socket,
    };
    let words = [
        "serve",
        file.as_str(),
        "--listen",
        "127.0.0.2:0",
        "--bursts",
        "0",
    ];
    Run::of(&network, words.as_slice()).explains(SERVING)?;
    let network = OneSocket {
        rt: &rt,
        address: SocketAddr::new(IPV6, 2944),
        socket: &socket,
    };
    let words = [
        "serve",
        file.as_str(),
        "--listen",
        "[::1]:2944",
        "--bursts",
        "0",
    ];
    Run::of(&network, words.as_slice()).explains(SERVING)?;
    let network = OneSocket {
        rt: &rt,
        address: everywhere(),
        socket: &socket,
    };
    Run::of(&network, &["serve", file.as_str(), "--bursts", "0"]).explains(SERVING)?;
    Ok(fs::remove_file(&rt, file.as_str())?)
}

/// An address for examples (RFC 3849), which no machine has.
fn documented() -> IpAddr {
    IpAddr::V6(Ipv6Addr::new(0x2001, 0xdb8, 0, 0, 0, 0, 0, 1))
}

#[test]
fn an_address_of_each_kind_that_is_named(rt: HostRuntime) -> Result<(), Fail> {
    let file = file_of(&rt, CONFIGURATION)?;
    let socket = client(&rt, IPV4)?;
    let network = OneSocket {
        rt: &rt,
        address: everywhere(),
        socket: &socket,
    };
    let words = [
        "serve",
        file.as_str(),
        "--listen",
        "0.0.0.0:2944",
        "--bursts",
        "0",
    ];
    Run::of(&network, words.as_slice()).explains(SERVING)?;
    let network = OneSocket {
        rt: &rt,
        address: SocketAddr::new(documented(), 65_535),
        socket: &socket,
    };
    let words = [
        "serve",
        file.as_str(),
        "--listen",
        "[2001:db8::1]:65535",
        "--bursts",
        "0",
    ];
    Run::of(&network, words.as_slice()).explains(SERVING)?;
    Ok(fs::remove_file(&rt, file.as_str())?)
}
