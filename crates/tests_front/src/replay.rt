//! Replays over streams that are slow, and that fail.

use crate::streams::{End, Sink, Source};
use gw_base::{Config, Items, MediaAddr, Mid, TermName};
use gw_engine::{Gateway, OpenGate};
use gw_front::{Counts, ReplayFault, replay};
use std::alloc::Global;
use std::io::{Read, Write};
use std::test::Fail;
use std::thread::Threads;
use tests_wanted::{is_so, is_text};

/// Two bursts, of a datagram each.
const TWO: &[u8] = b"D 7 1\nX\n.\nD 8 1\nX\n.\n";

/// How many bytes the first burst has.
const FIRST_LEN: usize = 10;

/// The answers to the first, and to both.
const ONE_ANSWERED: &[u8] =
    b"D 7 61\nMEGACO/1 [10.0.0.1]:2944\nError=400{\"Syntax error in message\"}\n.\n";

const TWO_ANSWERED: &[u8] =
    b"D 7 61\nMEGACO/1 [10.0.0.1]:2944\nError=400{\"Syntax error in message\"}\n.\nD 8 61\nMEGACO/1 [10.0.0.1]:2944\nError=400{\"Syntax error in message\"}\n.\n";

/// A burst that makes a context.
const MAKES: &[u8] = b"D 7 58\nMEGACO/1 [10.0.0.9]:2944 Transaction=1{Context=${Add=T/1}}\n.\n";

/// The gateway `[10.0.0.1]:2944` with one termination.
fn gateway(alloc: Global) -> Result<Gateway, Fail> {
    let mut terms = Items::new(alloc);
    terms.push(TermName::read(b"T/1")?)?;
    let config = Config {
        mid: Mid::read(b"[10.0.0.1]:2944")?,
        media: MediaAddr::read(b"10.0.0.1")?,
        contexts: 8,
        slots: 4,
        members: 3,
        keep: 4,
        terms,
    };
    Ok(Gateway::new(alloc, config)?)
}

/// The tables of a gateway as text are these.
fn has_tables(alloc: Global, gateway: &Gateway, tables: &[u8]) -> Result<(), Fail> {
    let text = gateway.audit_tables(alloc)?;
    is_text(text.as_slice(), tables)
}

/// How a replay by one worker ends.
fn replayed<R: Threads + Sync + AllocGlobal, I: Read, W: Write>(
    rt: &R,
    reader: &mut I,
    writer: &mut W,
    gateway: &mut Gateway,
) -> Result<Counts, ReplayFault> {
    replay(rt, rt.alloc(), reader, writer, gateway, 1, &OpenGate)
}

/// A replay of both bursts to a writer that takes so many bytes and ends so: it ends with the fault of a write, and the
/// bytes are a front of the answers.
fn fails_to_write<R: Threads + Sync + AllocGlobal>(
    rt: &R,
    room: usize,
    end: End,
    front: &[u8],
) -> Result<(), Fail> {
    let mut gateway = gateway(rt.alloc())?;
    let mut out = Sink::new(rt.alloc(), room, end);
    let ended = replayed(rt, &mut Source::slow(TWO), &mut out, &mut gateway);
    is_so(ended == Err(ReplayFault::Write), "the fault of a write")?;
    is_text(out.taken.as_slice(), front)
}

/// A replay of both bursts from a reader that fails behind so many reads: it ends with the fault of a read, and this
/// was written.
fn fails_to_read<R: Threads + Sync + AllocGlobal>(
    rt: &R,
    reads: usize,
    written: &[u8],
) -> Result<(), Fail> {
    let mut gateway = gateway(rt.alloc())?;
    let mut out = Vec::new(rt.alloc());
    let mut reader = Source::failing(TWO, reads);
    let ended = replayed(rt, &mut reader, &mut out, &mut gateway);
    is_so(ended == Err(ReplayFault::Read), "the fault of a read")?;
    is_text(out.as_slice(), written)
}

/// A gateway after a replay that would have made a context, but for its last read, which failed.
fn after_a_failed_read<R: Threads + Sync + AllocGlobal>(rt: &R) -> Result<Gateway, Fail> {
    let mut gateway = gateway(rt.alloc())?;
    let mut out = Vec::new(rt.alloc());
    let mut reader = Source::failing(MAKES, MAKES.len() - 1);
    let ended = replayed(rt, &mut reader, &mut out, &mut gateway);
    is_so(ended == Err(ReplayFault::Read), "the fault of a read")?;
    Ok(gateway)
}

#[test]
fn slow_streams_make_no_difference(rt: HostRuntime) -> Result<(), Fail> {
    let mut gateway = gateway(rt.alloc())?;
    let mut out = Sink::new(rt.alloc(), usize::MAX, End::Fails);
    let ended = replayed(&rt, &mut Source::slow(TWO), &mut out, &mut gateway);
    let counts = Counts {
        bursts: 2,
        datagrams: 2,
        replies: 2,
    };
    is_so(ended == Ok(counts), "the counts")?;
    is_text(out.taken.as_slice(), TWO_ANSWERED)
}

// The last read is the one that shows the end of the input.
#[test]
fn each_read_fails_in_turn(rt: HostRuntime) -> Result<(), Fail> {
    for reads in 0..FIRST_LEN {
        fails_to_read(&rt, reads, b"")?;
    }
    for reads in FIRST_LEN..TWO.len() {
        fails_to_read(&rt, reads, ONE_ANSWERED)?;
    }
    fails_to_read(&rt, TWO.len(), TWO_ANSWERED)
}

#[test]
fn each_write_fails_in_turn(rt: HostRuntime) -> Result<(), Fail> {
    for room in 0..TWO_ANSWERED.len() {
        let front = &TWO_ANSWERED[..room];
        fails_to_write(&rt, room, End::Fails, front)?;
        fails_to_write(&rt, room, End::IsFull, front)?;
    }
    Ok(())
}

#[test]
fn a_failed_flush_ends_a_replay(rt: HostRuntime) -> Result<(), Fail> {
    fails_to_write(&rt, usize::MAX, End::DoesNotFlush, ONE_ANSWERED)
}

#[test]
fn a_burst_is_not_executed_after_a_failed_read(rt: HostRuntime) -> Result<(), Fail> {
    let gateway = after_a_failed_read(&rt)?;
    let tables = b"cursors 0 0\nterm T/1 - InService\nkept 0\n";
    has_tables(rt.alloc(), &gateway, tables)
}

// The same gateway takes the burst up again, once all of it is read.
#[test]
fn a_burst_was_executed_before_a_failed_write(rt: HostRuntime) -> Result<(), Fail> {
    let mut gateway = after_a_failed_read(&rt)?;
    let mut out = Sink::new(rt.alloc(), 0, End::IsFull);
    let ended = replayed(&rt, &mut Source::slow(MAKES), &mut out, &mut gateway);
    is_so(ended == Err(ReplayFault::Write), "the fault of a write")?;
    let tables = b"cursors 1 0\ncontext 1 T/1\nterm T/1 1 InService\nkept 1\n";
    has_tables(rt.alloc(), &gateway, tables)
}
