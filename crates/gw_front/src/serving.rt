//! Serving controllers over UDP.

ghost use Rattle.std.specs.Prelude.{◌≡◌, ◌≤◌, OnOk, IfErr, IsSome};
ghost use Rattle.std.specs.Io.KnownBytes.{Keeps};
ghost use Rattle.gw_front.specs.Serving.{Serves, ServesSome, IsAtStart};

use crate::exchange::{Bound, Exchange};
use crate::serve_fault::ServeFault;
use crate::serve_options::ServeOptions;
use crate::server::{Server, serve_bursts};
use crate::totals::Totals;
use gw_engine::{Gateway, OpenGate, Workers};
use std::alloc::Global;
use std::io::Write;
use std::net::{Net, SocketAddr};
use std::sync::Wait;
use std::thread::Threads;
use std::time::Clock;

/// Says that the socket is bound. A writer that fails changes nothing.
fn announce<W: Write>(out: &mut W) {
    if out.write_all(b"listening\n").is_ok() {
        let _ = out.flush();
    }
}

/// Serves the gateway over a network: takes bursts of datagrams, and hands each answer over to where its datagram came
/// from. `listening` and LF go to `out` before the first receipt, lines about what was lost and reports later; a
/// failure there changes nothing.
///
/// A burst is what is there until nothing is, 1 to 256 datagrams; its transactions are executed by so many workers, 1
/// to 64. Where there are controllers, a datagram of anybody else is dropped before it is read; it counts in no limit
/// of a burst, and 1,024 of them are dropped at most before the burst in hand is executed. A datagram of more than
/// 65,507 bytes is dropped. An answer that cannot be sent is lost. A burst for which memory is refused is dropped
/// whole, and serving goes on with the gateway as it was. What was lost is written to `out` at the 1st, 2nd, 4th, 8th,
/// .. time. A report is one line of what was executed and lost up to then and of what the gateway holds; a clock that
/// fails or goes back stops no burst. With a number of bursts serving ends after so many, dropped ones among them, with
/// 0 at once; without it, it goes on until a fault. Its buffers are made once, at the start. It answers what was
/// executed.
///
/// # Errors
///
/// `NoMemory` where a buffer is refused at the start, `Poll` and `Receive` where the network refuses to wait or to
/// receive; after `Receive` the burst in hand was not executed. `Full` after so many bursts in a row that were dropped
/// for memory.
pub fn serve_over<R: Wait + Threads + Clock + Sync, S: Exchange, W: Write>(
    rt: &R,
    alloc: Global,
    exchange: &mut S,
    gateway: &mut Gateway,
    options: ServeOptions<'_>,
    out: &mut W,
) -> Result<Totals, ServeFault>
    requires some { 1 ≤ options.workers }
    requires limit { options.workers ≤ 64 }
    ensures served { Serves options.entry (S.course exchange.old) (S.course exchange.new) gateway.old
        gateway.new result }
    ensures start { IfErr result (λ fault. IsAtStart fault → (gateway.new ≡ gateway.old)
        × Keeps (W.contents out.old) (W.contents out.new)) }
{
    let mut server = Server::new(rt, alloc, options)?;
    announce(out);
    let workers = Workers::new(rt, options.workers, &OpenGate);
    serve_bursts(rt, &workers, alloc, &mut server, exchange, gateway, out)
}

/// Serves the gateway over UDP at the address, as `serve_over` does: `listening` and LF go to `out` once the socket is
/// bound.
///
/// # Errors
///
/// Those of `serve_over`, and `Bind` where the address cannot be bound.
pub fn serve<R: Net + Wait + Threads + Clock + Sync, W: Write>(
    rt: &R,
    alloc: Global,
    addr: SocketAddr,
    gateway: &mut Gateway,
    options: ServeOptions<'_>,
    out: &mut W,
) -> Result<Totals, ServeFault>
    requires some { 1 ≤ options.workers }
    requires limit { options.workers ≤ 64 }
    ensures ended { OnOk result (IsSome options.entry.bursts) }
    ensures served { ServesSome options.entry gateway.old gateway.new result }
    ensures start { IfErr result (λ fault. IsAtStart fault → (gateway.new ≡ gateway.old)
        × Keeps (W.contents out.old) (W.contents out.new)) }
{
    let mut bound = Bound::bind(rt, alloc, addr)?;
    serve_over(rt, alloc, &mut bound, gateway, options, out)
}
