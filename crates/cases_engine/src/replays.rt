//! Replays: inputs, how the replay of each ends, and what it writes.

use crate::pieces::Pieces;
use crate::repeats::repeated;
use crate::workers::{ALONE, EACH, Workers};
use cases_text::{CaseFault, Page, config_of, decoded};
use gw_engine::{Gateway, OpenGate};
use gw_front::{Counts, ReplayFault, replay};
use std::alloc::Global;
use std::thread::Threads;

/// The most bytes that an input gives at a time.
const ALL: usize = 65_536;

/// How many bytes the input gives at a time, in replays by one worker.
const PIECES: [usize; 4] = [1, 2, 3, 7];

/// How a replay ended.
fn write_ended(out: &mut Page, ended: Result<Counts, ReplayFault>) {
    match ended {
        Ok(counts) => {
            out.put(b"bursts ");
            out.number(counts.bursts);
            out.put(b" datagrams ");
            out.number(counts.datagrams);
            out.put(b" replies ");
            out.number(counts.replies);
        }
        Err(fault) => out.display(&fault),
    }
    out.put(b"\n");
}

/// The first answer: up to the next, where one follows.
fn first_of(text: &[u8]) -> &[u8] {
    for (place, window) in text.windows(4).enumerate() {
        if window.starts_with(b"\nD ") {
            return text.get(..place.saturating_add(1)).unwrap_or(text);
        }
    }
    text
}

/// A line for what was written; where answers are equal, one for them and one for the rest.
fn write_written(out: &mut Page, text: &[u8]) {
    let first = first_of(text);
    let mut rest = text;
    let mut count = 0u64;
    // Each step takes one byte or more.
    for _step in text {
        let Some(behind) = rest.strip_prefix(first) else {
            break;
        };
        rest = behind;
        count = count.saturating_add(1);
    }
    if count < 2 {
        out.encoded(text);
        return;
    }
    out.number(count);
    out.put(b" times ");
    out.encoded(first);
    out.put(b"\n");
    out.encoded(rest);
}

/// A gateway of its own for each replay.
fn gateway(alloc: Global) -> Result<Gateway, CaseFault> {
    let config = config_of(alloc, b"")?;
    match Gateway::new(alloc, config) {
        Ok(gateway) => Ok(gateway),
        Err(_) => Err(CaseFault::Form),
    }
}

/// How a replay is made.
#[derive(Clone, Copy)]
struct ReplayOptions {
    /// How many bytes the input gives at a time.
    most: usize,
    workers: Workers,
}

impl ReplayOptions {
    fn write(&self, out: &mut Page) {
        out.put(b"differs in pieces of ");
        out.number(self.most as u64);
        out.put(b" with ");
        out.number(u64::from(self.workers.number));
        out.put(b" workers");
    }
}

/// How the replay of the text ends and what it writes.
fn write_replay<R: Threads + Sync>(
    rt: &R,
    text: &[u8],
    run_options: ReplayOptions,
    out: &mut Page,
) -> Result<(), CaseFault> {
    let mut gateway = gateway(out.alloc())?;
    let mut written = Vec::new(out.alloc());
    let ended = replay(
        rt,
        out.alloc(),
        &mut Pieces::new(text, run_options.most),
        &mut written,
        &mut gateway,
        run_options.workers.number,
        &OpenGate,
    );
    write_ended(out, ended);
    write_written(out, written.as_slice());
    Ok(())
}

/// The same in another way, which must make no difference: where it does, that is written.
fn write_difference<R: Threads + Sync>(
    rt: &R,
    text: &[u8],
    run_options: ReplayOptions,
    out: &mut Page,
) -> Result<(), CaseFault> {
    let mut other = Page::new(out.alloc());
    write_replay(rt, text, run_options, &mut other)?;
    if other.whole()? != out.as_bytes() {
        out.clear();
        run_options.write(out);
    }
    Ok(())
}

/// The same for each of these numbers of workers.
fn write_variants<R: Threads + Sync>(
    rt: &R,
    text: &[u8],
    numbers: &[Workers],
    out: &mut Page,
) -> Result<(), CaseFault> {
    for workers in numbers {
        let run_options = ReplayOptions {
            most: ALL,
            workers: *workers,
        };
        write_difference(rt, text, run_options, out)?;
    }
    Ok(())
}

/// The same for each number of workers and for each size of pieces.
fn write_replays<R: Threads + Sync>(rt: &R, text: &[u8], out: &mut Page) -> Result<(), CaseFault> {
    let alone = ReplayOptions {
        most: ALL,
        workers: ALONE,
    };
    write_replay(rt, text, alone, out)?;
    write_variants(rt, text, &EACH, out)?;
    for most in PIECES {
        let run_options = ReplayOptions {
            most,
            workers: ALONE,
        };
        write_difference(rt, text, run_options, out)?;
    }
    Ok(())
}

/// The answer to a case of replays.
pub fn answer<R: Threads + Sync>(
    rt: &R,
    call: &str,
    given: &[u8],
    out: &mut Page,
) -> Result<(), CaseFault> {
    match call {
        "input" => {
            let text = decoded(out.alloc(), given)?;
            write_replays(rt, text.as_slice(), out)
        }
        "times" => {
            let text = repeated(out.alloc(), given)?;
            write_replays(rt, text.whole()?, out)
        }
        _ => Err(CaseFault::Call),
    }
}
