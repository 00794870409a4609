//! Serving over a network that stands in for a socket: what comes, and below it what goes, how serving ends and what it
//! says.

use crate::clocks::{Clocked, Readings};
use crate::line::{Line, sender_of};
use crate::streams::Output;
use cases_text::{CaseFault, Page, as_text, config_of, decoded, number_of, split_word};
use gw_engine::Gateway;
use gw_front::{Controller, ServeFault, ServeOptions, Totals, serve_over};
use std::alloc::Global;
use std::net::SocketAddr;
use std::sync::Wait;
use std::thread::Threads;

/// How many workers the gateway has.
const WORKERS: u32 = 2;

/// What comes in the next case of serving, and how it is served.
#[derive(Drop)]
pub struct Networks {
    line: Line,
    controllers: Vec<Controller>,
    report: Option<u64>,
    readings: Readings,
}

/// How serving ended.
fn write_ended(out: &mut Page, ended: Result<Totals, ServeFault>) {
    match ended {
        Ok(_) => out.put(b"done"),
        Err(fault) => out.display(&fault),
    }
}

/// A sender by a word.
fn sender_in(word: &[u8]) -> Result<SocketAddr, CaseFault> {
    sender_of(as_text(word)).ok_or(CaseFault::Form)
}

/// The gateway of cases.
fn gateway(alloc: Global) -> Result<Gateway, CaseFault> {
    let config = config_of(alloc, b"")?;
    match Gateway::new(alloc, config) {
        Ok(gateway) => Ok(gateway),
        Err(_) => Err(CaseFault::Form),
    }
}

/// A reading of the clock: milliseconds, or `-` where it fails.
fn reading_of(word: &[u8]) -> Result<Option<u64>, CaseFault> {
    if word == b"-".as_slice() {
        return Ok(None);
    }
    let time = number_of(word).ok_or(CaseFault::Form)?;
    Ok(Some(u64::from(time)))
}

/// Readings of the clock.
fn readings_of(alloc: Global, words: &[u8]) -> Result<Readings, CaseFault> {
    let mut times = Vec::new(alloc);
    let mut rest = words;
    // Each step takes one byte or more.
    for _step in words {
        if rest.is_empty() {
            break;
        }
        let (word, behind) = split_word(rest);
        times.push(reading_of(word)?)?;
        rest = behind;
    }
    Ok(Readings { times })
}

impl Networks {
    /// Nothing comes yet, everybody is answered, and there is no report.
    pub fn new(alloc: Global) -> Networks {
        Networks {
            line: Line::new(alloc),
            controllers: Vec::new(alloc),
            report: None,
            readings: Readings {
                times: Vec::new(alloc),
            },
        }
    }

    /// Datagrams come, so many, all from one sender and all the same.
    fn add(&mut self, alloc: Global, count: u32, words: &[u8]) -> Result<(), CaseFault> {
        let (sender, text) = split_word(words);
        let sender = sender_in(sender)?;
        let text = decoded(alloc, text)?;
        for _ in 0..count {
            self.line.add_datagram(alloc, sender, text.as_slice())?;
        }
        Ok(())
    }

    /// One controller more.
    fn add_controller(&mut self, word: &[u8]) -> Result<(), CaseFault> {
        match as_text(word).parse() {
            Ok(controller) => self.controllers.push(controller)?,
            Err(_) => return Err(CaseFault::Form),
        }
        Ok(())
    }

    /// What comes and how it is served, of which nothing is left here.
    fn take(&mut self, alloc: Global) -> Networks {
        std::mem::replace(self, Networks::new(alloc))
    }
}

/// Serves a new gateway for so many bursts, or without end where the words name no number.
fn serve<R: Wait + Threads + Sync>(
    rt: &R,
    networks: Networks,
    words: &[u8],
    out: &mut Page,
) -> Result<(), CaseFault> {
    let Networks {
        mut line,
        controllers,
        report,
        readings,
    } = networks;
    let rt = Clocked::new(rt, &readings);
    let options = ServeOptions {
        workers: WORKERS,
        bursts: number_of(words).map(u64::from),
        controllers: controllers.as_slice(),
        report,
        give_up: None,
    };
    let mut gateway = gateway(out.alloc())?;
    let mut said = Output::new(Vec::new(out.alloc()), usize::MAX);
    let ended = serve_over(
        &rt,
        out.alloc(),
        &mut line,
        &mut gateway,
        options,
        &mut said,
    );
    out.encoded(said.as_bytes());
    out.put(b"\n");
    line.write(out);
    out.put(b"\n");
    write_ended(out, ended);
    Ok(())
}

/// The answer to a case of serving.
pub fn answer<R: Wait + Threads + Sync>(
    rt: &R,
    networks: &mut Networks,
    call: &str,
    given: &[u8],
    out: &mut Page,
) -> Result<(), CaseFault> {
    match call {
        "from" => return networks.add(out.alloc(), 1, given),
        "times" => {
            let (count, words) = split_word(given);
            let count = number_of(count).ok_or(CaseFault::Form)?;
            return networks.add(out.alloc(), count, words);
        }
        "pause" => networks.line.add_nothing()?,
        "broken" => networks.line.add_broken()?,
        "deaf" => networks.line.set_deaf(sender_in(given)?),
        "controller" => networks.add_controller(given)?,
        "report" => networks.report = number_of(given).map(u64::from),
        "clock" => networks.readings = readings_of(out.alloc(), given)?,
        "serve" => return serve(rt, networks.take(out.alloc()), given, out),
        _ => return Err(CaseFault::Call),
    }
    Ok(())
}
