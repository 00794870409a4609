//! The gateway that the program has.

ghost use Rattle.std.specs.Prelude.{◌≡◌, IfOk, IfErr};
ghost use Rattle.gw_base.specs.Addresses.{IsAddress};
ghost use Rattle.gw_base.specs.Mids.{IsMid};
ghost use Rattle.gw_base.specs.Names.{IsName};
ghost use Rattle.gw_program.specs.Start.{start};
ghost use Rattle.gw_program.specs.declared.fault.Fault.TheVariants.{NoMemory};

use crate::fault::Fault;
use gw_base::{Items, MediaAddr, Mid, TermName};
use gw_engine::{Config, Gateway};
use std::alloc::Global;

/// The mId of a text that is one.
fn mid(text: &[u8]) -> Mid
    requires { IsMid text.now }
    ensures { result ≡ text.now }
{
    match Mid::read(text) {
        Ok(mid) => mid,
        Err(_) => unreachable!(),
    }
}

/// The address of a text that is one.
fn address(text: &[u8]) -> MediaAddr
    requires { IsAddress text.now }
    ensures { result ≡ text.now }
{
    match MediaAddr::read(text) {
        Ok(address) => address,
        Err(_) => unreachable!(),
    }
}

/// The name of a text that is one.
fn name(text: &[u8]) -> TermName
    requires { IsName text.now }
    ensures { result ≡ text.now }
{
    match TermName::read(text) {
        Ok(name) => name,
        Err(_) => unreachable!(),
    }
}

/// The gateway `[10.0.0.1]:2944`: four terminations T/1 to T/4, 8 contexts of at most 3 members, 4 slots, 4 kept
/// replies.
pub fn gateway(alloc: Global) -> Result<Gateway, Fault<'static>>
    ensures made { IfOk result (λ gateway. gateway ≡ start) }
    ensures fault { IfErr result (λ fault. fault ≡ NoMemory) }
{
    let mut terms = Items::new(alloc);
    terms.push(name(b"T/1"))?;
    terms.push(name(b"T/2"))?;
    terms.push(name(b"T/3"))?;
    terms.push(name(b"T/4"))?;
    let config = Config {
        mid: mid(b"[10.0.0.1]:2944"),
        media: address(b"10.0.0.1"),
        contexts: 8,
        slots: 4,
        members: 3,
        keep: 4,
        terms,
    };
    Ok(Gateway::new(alloc, config)?)
}
