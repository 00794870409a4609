//! Gateways: datagrams, what each is answered, and the tables after them.

use crate::answers::PEER;
use crate::bursts::{CONTROLLER, add, add_many, add_padded, datagram_of};
use crate::variants::{Audit, BurstReport, Variants, run, write_audit};
use cases_text::{CaseFault, Page, decoded, number_of, split_word};
use gw_base::Items;
use gw_engine::{ConfigFault, Datagram};
use std::alloc::Global;
use std::rt::Clock;
use std::slice;
use std::thread::Threads;

/// The gateways that cases are about, which live until the next are made, and the datagrams of their next burst.
#[derive(Drop)]
pub struct Gateways {
    variants: Variants,
    burst: Items<Datagram>,
}

/// The answers to a datagram.
fn write_datagram<R: Threads + Clock + Sync>(
    rt: &R,
    variants: &mut Variants,
    text: &[u8],
    out: &mut Page,
) -> Result<(), CaseFault> {
    let datagram = datagram_of(out.alloc(), PEER, text)?;
    run(
        rt,
        variants,
        slice::from_ref(&datagram),
        BurstReport::Each,
        out,
    )?;
    Ok(())
}

/// The answers to a datagram from the controller.
fn write_headed<R: Threads + Clock + Sync>(
    rt: &R,
    variants: &mut Variants,
    text: &[u8],
    out: &mut Page,
) -> Result<(), CaseFault> {
    let mut whole = Page::new(out.alloc());
    whole.put(CONTROLLER);
    whole.put(text);
    write_datagram(rt, variants, whole.whole()?, out)
}

/// The answers to a transaction of this number and of so many actions, each of which makes a context with a termination
/// of its own.
fn write_each<R: Threads + Clock + Sync>(
    rt: &R,
    variants: &mut Variants,
    words: &[u8],
    out: &mut Page,
) -> Result<(), CaseFault> {
    let (id, count) = split_word(words);
    let count = number_of(count).ok_or(CaseFault::Form)?;
    let mut text = Page::new(out.alloc());
    text.put(b"Transaction=");
    text.put(id);
    for number in 0..count {
        text.put(if number == 0 { b"{" } else { b"," });
        text.put(b"C=${A=T/");
        text.number(u64::from(number));
        text.put(b"}");
    }
    text.put(b"}");
    write_headed(rt, variants, text.whole()?, out)
}

/// The answers to each proper prefix of a datagram: the first, and how many of the others are like it.
fn write_prefixes<R: Threads + Clock + Sync>(
    rt: &R,
    variants: &mut Variants,
    text: &[u8],
    out: &mut Page,
) -> Result<(), CaseFault> {
    let mut like = 0u64;
    write_datagram(rt, variants, b"", out)?;
    for end in 0..text.len() {
        let mut other = Page::new(out.alloc());
        write_datagram(rt, variants, &text[..end], &mut other)?;
        if other.whole()? == out.as_bytes() {
            like = like.saturating_add(1);
        }
    }
    out.number(like);
    out.put(b" of ");
    out.number(text.len() as u64);
    Ok(())
}

/// The answers to a burst of nothing.
fn write_nothing<R: Threads + Clock + Sync>(
    rt: &R,
    variants: &mut Variants,
    out: &mut Page,
) -> Result<(), CaseFault> {
    run(rt, variants, &[], BurstReport::Each, out)?;
    Ok(())
}

/// Sends the burst, which is empty then. Where memory is refused it stays as it is.
fn write_burst<R: Threads + Clock + Sync>(
    rt: &R,
    gateways: &mut Gateways,
    requested: BurstReport,
    out: &mut Page,
) -> Result<(), CaseFault> {
    if run(
        rt,
        &mut gateways.variants,
        gateways.burst.as_slice(),
        requested,
        out,
    )? {
        gateways.burst.clear();
    }
    Ok(())
}

/// The place of a job, where one is named.
fn place_of(word: &[u8]) -> Result<Option<usize>, CaseFault> {
    if word.is_empty() {
        return Ok(None);
    }
    let place = number_of(word).ok_or(CaseFault::Form)?;
    Ok(Some(place as usize))
}

impl Gateways {
    /// No gateway yet.
    pub fn new(alloc: Global) -> Gateways {
        Gateways {
            variants: Variants::new(alloc),
            burst: Items::new(alloc),
        }
    }

    /// Adds a datagram from the controller to the burst.
    fn add_headed(&mut self, alloc: Global, text: &[u8]) -> Result<(), CaseFault> {
        let mut whole = Page::new(alloc);
        whole.put(CONTROLLER);
        whole.put(text);
        add(alloc, &mut self.burst, whole.whole()?)
    }
}

/// The answer to a case for the gateways that are there.
fn answer_there<R: Threads + Clock + Sync>(
    rt: &R,
    gateways: &mut Gateways,
    call: &str,
    text: &[u8],
    out: &mut Page,
) -> Result<(), CaseFault> {
    match call {
        "Q" => write_headed(rt, &mut gateways.variants, text, out),
        "datagram" => write_datagram(rt, &mut gateways.variants, text, out),
        "each" => write_each(rt, &mut gateways.variants, text, out),
        "prefixes" => write_prefixes(rt, &mut gateways.variants, text, out),
        "nothing" => write_nothing(rt, &mut gateways.variants, out),
        "burst" => write_burst(rt, gateways, BurstReport::Each, out),
        "last" => write_burst(rt, gateways, BurstReport::Last, out),
        "waves" => write_burst(rt, gateways, BurstReport::Waves, out),
        "meet" => write_burst(rt, gateways, BurstReport::Meeting(place_of(text)?), out),
        "audit" => write_audit(&gateways.variants, Audit::Text, out),
        "audit-size" => write_audit(&gateways.variants, Audit::Size, out),
        _ => Err(CaseFault::Call),
    }
}

/// The answer to a case of gateways.
pub fn answer<R: Threads + Clock + Sync>(
    rt: &R,
    gateways: &mut Gateways,
    call: &str,
    given: &[u8],
    out: &mut Page,
) -> Result<(), CaseFault> {
    let text = decoded(out.alloc(), given)?;
    let text = text.as_slice();
    match call {
        "workers" => gateways.variants.choose(text),
        "new" => gateways.variants.make(text, out),
        "no-memory" => {
            out.display(&ConfigFault::NoMemory);
            Ok(())
        }
        "+Q" => gateways.add_headed(out.alloc(), text),
        "+datagram" => add(out.alloc(), &mut gateways.burst, text),
        "+many" => add_many(out.alloc(), &mut gateways.burst, text),
        "+padded" => add_padded(out.alloc(), &mut gateways.burst, text),
        _ => answer_there(rt, gateways, call, text, out),
    }
}
