//! Answering one bare datagram.

ghost use Rattle.std.specs.Prelude.{◌≡◌, [], ℕ, OnOk, OnErr, IfErr, take};
ghost use Rattle.std.specs.Io.KnownBytes.{Appends};
ghost use Rattle.gw_front.specs.Answering.{IsAnswer, bare_text};
ghost use Rattle.gw_front.specs.Inputs.{IsWholeInput};
ghost use Rattle.gw_front.specs.declared.replay_fault.ReplayFault.TheVariants.{Write as WriteFault};

use crate::inbox::LONGEST_DATAGRAM;
use crate::replay_fault::ReplayFault;
use crate::writing::{finish, put};
use gw_base::Items;
use gw_engine::{Datagram, Gateway, Octets, OpenGate};
use std::alloc::Global;
use std::io::{ErrorKind, Read, Write};
use std::thread::Threads;

/// How many bytes are gathered for one write.
const PIECE: usize = 65_536;

/// All that an input has, as one datagram.
fn read_input<R: Read>(alloc: Global, reader: &mut R) -> Result<Items<u8>, ReplayFault>
    ensures { IsWholeInput (R.remaining reader.old) result }
{
    let mut bytes = Vec::new(alloc);
    let limit = LONGEST_DATAGRAM as u64 + 1;
    match reader.take(limit).read_to_end(&mut bytes) {
        Ok(_) if bytes.len() <= LONGEST_DATAGRAM => Ok(Items::from(bytes)),
        Ok(_) => Err(ReplayFault::TooLong),
        Err(e) if e.kind() == ErrorKind::OutOfMemory => Err(ReplayFault::NoMemory),
        Err(_) => Err(ReplayFault::Read),
    }
}

/// Writes the bytes of the answers, one behind the other, and flushes.
fn write_bare<W: Write>(
    out: &mut W,
    held: &mut Vec<u8>,
    answers: &[Datagram],
) -> Result<(), ReplayFault>
    requires { held.old.items ≡ [] }
    ensures whole { OnOk result (Appends (W.contents out.old) (W.contents out.new) (bare_text answers.now)) }
    ensures front { OnErr result ((n : ℕ) × Appends (W.contents out.old) (W.contents out.new)
        (take n (bare_text answers.now))) }
    ensures fault { IfErr result (λ fault. fault ≡ WriteFault) }
{
    for answer in answers {
        put(out, held, answer.bytes.as_slice())?;
    }
    finish(out, held)
}

/// Reads an input to its end as one datagram, answers it, and writes the bytes of the answer; nothing where there is
/// none, and of several one behind the other. One worker executes it.
///
/// # Errors
///
/// `TooLong` where the input has more than 65,507 bytes, `Read` where a read failed, `NoMemory` where an allocation was
/// refused: the datagram was not executed, and nothing is out. `Write` where a write failed or took 0 bytes: it was
/// executed, and a front of the answers is out.
pub fn answer<T: Threads + Sync, R: Read, W: Write>(
    rt: &T,
    alloc: Global,
    reader: &mut R,
    writer: &mut W,
    gateway: &mut Gateway,
) -> Result<(), ReplayFault>
    ensures { IsAnswer (R.remaining reader.old) (W.contents writer.old) (W.contents writer.new) gateway.old
        gateway.new result }
{
    let bytes = read_input(alloc, reader)?;
    let mut held = Vec::with_capacity(alloc, PIECE)?;
    let bytes = Octets::from(bytes);
    let burst = [Datagram { peer: 0, bytes }];
    let answers = gateway.run(rt, alloc, 1, burst.as_slice(), &OpenGate)?;
    write_bare(writer, &mut held, answers.as_slice())
}
