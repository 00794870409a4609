//! Replays: bursts read from an input, executed, and answered to an output.

ghost use Rattle.std.specs.Prelude.{◌≡◌, ◌≤◌, [], OnOk};
ghost use Rattle.std.specs.Io.Buffered.{reader_remaining};
ghost use Rattle.gw_front.specs.Replaying.{IsBurstDone};
ghost use Rattle.gw_front.specs.Replays.{IsReplay};

use crate::answers::write_answers;
use crate::burst_reading::{Next, next_burst};
use crate::counted::Counted;
use crate::counts::Counts;
use crate::replay_fault::ReplayFault;
use gw_engine::{Datagram, Gate, Gateway, Workers};
use std::alloc::Global;
use std::io::{BufReader, Read, Write};
use std::thread::Threads;

/// How many bytes are read ahead. More than that goes straight into its place.
const READ_AHEAD: usize = 8_192;

/// How many bytes are gathered for one write.
const PIECE: usize = 65_536;

/// Executes a burst and writes its answers; the counts with it.
fn execute<T: Threads + Sync, G: Gate, W: Write>(
    workers: &Workers<'_, T, G>,
    alloc: Global,
    out: &mut W,
    held: &mut Vec<u8>,
    gateway: &mut Gateway,
    burst: &[Datagram],
    counts: Counts,
) -> Result<Counts, ReplayFault>
    requires { held.old.items ≡ [] }
    ensures done { IsBurstDone burst.now counts (W.contents out.old) (W.contents out.new) gateway.old
        gateway.new result }
    ensures empty { OnOk result (held.new.items ≡ []) }
{
    let answers = gateway.run_counted(alloc, workers, burst)?.answers;
    // No replay lives to see so many answers. They could not be counted, so this burst's are not written.
    let Some(counts) = counts.with_burst(burst.len(), answers.len()) else {
        return Err(ReplayFault::Write);
    };
    write_answers(out, held, answers.as_slice())?;
    Ok(counts)
}

/// Executes the bursts of an input, one after another.
fn replay_all<T: Threads + Sync, G: Gate, R: Read, W: Write>(
    workers: &Workers<'_, T, G>,
    alloc: Global,
    input: &mut BufReader<R>,
    out: &mut W,
    held: &mut Vec<u8>,
    gateway: &mut Gateway,
) -> Result<Counts, ReplayFault>
    requires { held.old.items ≡ [] }
    ensures { IsReplay (reader_remaining R.remaining input.old) (W.contents out.old) (W.contents out.new) gateway.old
        gateway.new result }
{
    let mut counts = Counts::NONE;
    for _turn in 0..u64::MAX {
        match next_burst(alloc, input)? {
            Next::Burst(burst) => {
                counts = execute(workers, alloc, out, held, gateway, burst.as_slice(), counts)?;
            }
            Next::Last(burst) => {
                return execute(workers, alloc, out, held, gateway, burst.as_slice(), counts);
            }
            Next::End => return Ok(counts),
        }
    }
    Err(ReplayFault::Read)
}

/// Executes the bursts of an input, one after another, and writes the answers of each, when all of them stand, in
/// the form in which bursts are read: `D <peer> <length>` and a line feed, so many bytes, a line feed; `.` and a line
/// feed end a burst. The transactions of a burst are executed by so many workers, 1 to 64, each of which passes the
/// gate before each; how many makes no difference to what is answered. At most one burst is kept in memory.
/// Reads and writes that a signal interrupts are tried again.
///
/// # Errors
///
/// The bursts before the fault were executed, and their answers are out whole. `BadHeader`, `Truncated` and
/// `TooLong` where that is wrong first in what follows them; `Read` where a read failed, or after 4,294,967,295 reads;
/// `NoMemory` where an allocation was refused: of the burst in hand nothing was executed, and nothing is out. `Write`
/// where a write failed or took 0 bytes: the burst in hand was executed, and a front of the text of its answers is
/// out.
pub fn replay<T: Threads + Sync, R: Read, W: Write, G: Gate>(
    rt: &T,
    alloc: Global,
    reader: &mut R,
    writer: &mut W,
    gateway: &mut Gateway,
    workers: u32,
    gate: &G,
) -> Result<Counts, ReplayFault>
    requires some { 1 ≤ workers }
    requires limit { workers ≤ 64 }
    ensures { IsReplay (R.remaining reader.old) (W.contents writer.old) (W.contents writer.new) gateway.old
        gateway.new result }
{
    let Ok(mut input) = BufReader::with_capacity(alloc, READ_AHEAD, Counted::new(reader)) else {
        return Err(ReplayFault::NoMemory);
    };
    let mut held = Vec::with_capacity(alloc, PIECE)?;
    let workers = Workers::new(rt, workers, gate);
    replay_all(&workers, alloc, &mut input, writer, &mut held, gateway)
}
