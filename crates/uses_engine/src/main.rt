//! The gateway in a product of one's own: a configuration in code, a burst of datagrams, its answers, the tables.
#![tactic(auto)]

use gw_base::{Items, MediaAddr, Mid, TermName};
use gw_engine::{Config, Datagram, Gateway, Octets, OpenGate};
use std::alloc::Global;
use std::io::Write;

/// What a controller sends, from a peer whose number is ours to choose.
const PEER: u32 = 7;

const CALL: &[u8] = b"MEGACO/1 [10.0.0.9]:2944 Transaction=1{Context=${Add=line/1,Add=line/2}}";

/// A gateway with two lines.
fn gateway(alloc: Global) -> anyhow::Result<Gateway> {
    let mut terms = Items::new(alloc);
    terms.push(TermName::read(b"line/1")?)?;
    terms.push(TermName::read(b"line/2")?)?;
    let config = Config {
        mid: Mid::read(b"[10.0.0.1]:2944")?,
        media: MediaAddr::read(b"10.0.0.1")?,
        contexts: 10,
        slots: 10,
        members: 2,
        keep: 10,
        terms,
    };
    Ok(Gateway::new(alloc, config)?)
}

fn main(rt: HostRuntime) -> anyhow::Result<()> {
    let mut gateway = gateway(rt.alloc())?;
    let bytes = Octets::from(Items::from_slice(rt.alloc(), CALL)?);
    let burst = [Datagram { peer: PEER, bytes }];
    let answers = gateway.run(&rt, rt.alloc(), 1, burst.as_slice(), &OpenGate)?;
    let mut out = rt.stdout();
    for answer in answers.into_vec() {
        writeln!(out, "to peer {}:", answer.peer)?;
        out.write_all(answer.into_bytes(rt.alloc())?.as_slice())?;
        out.write_all(b"\n")?;
    }
    out.write_all(gateway.audit_tables(rt.alloc())?.as_slice())?;
    Ok(())
}
