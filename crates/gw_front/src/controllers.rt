//! The controllers of a gateway: whose datagrams are taken.

ghost use Rattle.std.specs.Prelude.{◌≡◌, ◌||◌, ◌&&◌};
ghost use Rattle.std.specs.List.{list_any};
ghost use Rattle.std.specs.Net.Grammar.{Parses};
ghost use Rattle.gw_front.specs.Controllers.{IsControllerText, is_same_host, is_port, is_from, is_admitted};

use std::net::{IpAddr, SocketAddr};
use std::str::FromStr;

/// A controller: a host, at one port or at every port of it.
#[derive(Clone, Copy)]
pub struct Controller {
    /// The address of the host.
    pub host: IpAddr,
    /// The port that it sends from; none where it may send from every port.
    pub port: Option<u16>,
}

/// A text that is neither an IP address nor one with a port.
#[derive(Clone, Copy, Debug, Drop)]
pub struct NoAddress;

/// An address as `10.0.0.9` or `2001:db8::9`, or with a port as `10.0.0.9:2944` or `[2001:db8::9]:2944`.
impl FromStr for Controller {
    type Err = NoAddress;

    ghost from_str_gives = { Parses IsControllerText };

    fn from_str(text: &str) -> Result<Controller, NoAddress> {
        if let Ok(host) = text.parse::<IpAddr>() {
            return Ok(Controller { host, port: None });
        }
        match text.parse::<SocketAddr>() {
            Ok(address) => Ok(Controller {
                host: address.ip(),
                port: Some(address.port()),
            }),
            Err(_) => Err(NoAddress),
        }
    }
}

/// Whether two addresses are of one host. An IPv4 address that is mapped into IPv6, as `::ffff:10.0.0.9`, is that IPv4
/// address.
fn is_same_host(a: IpAddr, b: IpAddr) -> bool
    ensures { result ≡ is_same_host a b }
{
    match (a.to_canonical(), b.to_canonical()) {
        (IpAddr::V4(a), IpAddr::V4(b)) => a.octets().as_slice() == b.octets().as_slice(),
        (IpAddr::V6(a), IpAddr::V6(b)) => a.segments().as_slice() == b.segments().as_slice(),
        _ => false,
    }
}

fn is_port(expected: Option<u16>, port: u16) -> bool
    ensures { result ≡ is_port expected port }
{
    match expected {
        Some(expected) => expected == port,
        None => true,
    }
}

impl Controller {
    /// Whether a sender is this controller.
    fn is_from(&self, sender: SocketAddr) -> bool
        ensures { result ≡ is_from self.now sender }
    {
        is_same_host(self.host, sender.ip()) && is_port(self.port, sender.port())
    }
}

fn is_one_of(controllers: &[Controller], sender: SocketAddr) -> bool
    ensures { result ≡ list_any (λ c. is_from c sender) controllers.now }
{
    controllers
        .iter()
        .any(|controller| controller.is_from(sender))
}

/// Whether the datagrams of a sender are taken: he is one of the controllers, or there are none.
pub(crate) fn is_admitted(controllers: &[Controller], sender: SocketAddr) -> bool
    ensures { result ≡ is_admitted controllers.now sender }
{
    controllers.is_empty() || is_one_of(controllers, sender)
}
