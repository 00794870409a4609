//! Bytes from a reader: one, or so many. What was read ahead is taken from there; only what is not there is read.

ghost use Rattle.std.specs.Prelude.{◌≡◌, ◌<◌, ◌≤◌, [], ◌∷◌, length, take, IfOk, IfErr, IfSome, IfNone, OnOk};
ghost use Rattle.std.specs.Io.Buffered.{reader_buffer, reader_remaining};
ghost use Rattle.std.specs.Io.KnownBytes.{Consumes, IsAtEnd};
ghost use Rattle.gw_front.specs.Inputs.{IsShorter};

use crate::replay_fault::ReplayFault;
use gw_base::Items;
use std::alloc::Global;
use std::io::{BufRead, BufReader, ErrorKind, Read};

/// So many of the bytes that were read ahead are taken.
pub(crate) fn pass<R: Read>(reader: &mut BufReader<R>, count: usize)
    ensures { Consumes (reader_remaining R.remaining reader.old) (reader_remaining R.remaining reader.new)
        (take count (reader_buffer reader.old)) }
{
    reader.consume(count);
}

/// A read that no signal interrupted: how many bytes it gave. None only at the end of the input.
fn read_some<R: Read>(reader: &mut R, place: &mut [u8]) -> Result<usize, ReplayFault>
    ensures bound { IfOk result (λ count. count ≤ length place.new) }
    ensures bytes { IfOk result (λ count. Consumes (R.remaining reader.old) (R.remaining reader.new)
        (take count place.new)) }
    ensures end { IfOk result (λ count. count ≡ 0 → 0 < length place.old → IsAtEnd (R.remaining reader.new)) }
    ensures fault { IfErr result (λ fault. fault ≡ ReplayFault.Read) }
{
    for _turn in 0..u64::MAX {
        match reader.read(place) {
            Ok(count) => return Ok(count),
            Err(e) if e.kind() == ErrorKind::Interrupted => {}
            Err(_) => return Err(ReplayFault::Read),
        }
    }
    Err(ReplayFault::Read)
}

/// The next byte; none at the end of the input.
pub(crate) fn read_byte<R: Read>(reader: &mut BufReader<R>) -> Result<Option<u8>, ReplayFault>
    ensures byte { IfOk result (λ byte. IfSome byte (λ b. Consumes (reader_remaining R.remaining reader.old)
        (reader_remaining R.remaining reader.new) (b ∷ []))) }
    ensures end { IfOk result (λ byte. IfNone byte (Consumes (reader_remaining R.remaining reader.old)
        (reader_remaining R.remaining reader.new) [] × IsAtEnd (reader_remaining R.remaining reader.new))) }
    ensures fault { IfErr result (λ fault. fault ≡ ReplayFault.Read) }
{
    if let Some(first) = reader.buffer().first() {
        let byte = *first;
        pass(reader, 1);
        return Ok(Some(byte));
    }
    let mut place = [0u8; 1];
    match read_some(reader, &mut place)? {
        0 => Ok(None),
        _ => Ok(Some(place[0])),
    }
}

/// Fills the place with the next bytes.
fn fill<R: Read>(reader: &mut R, place: &mut [u8]) -> Result<(), ReplayFault>
    ensures bytes { OnOk result (Consumes (R.remaining reader.old) (R.remaining reader.new) place.new) }
    ensures fault { IfErr result (λ fault. IsShorter (length place.old) (R.remaining reader.old) fault) }
{
    let mut filled = 0;
    while filled < place.len() {
        let count = read_some(reader, &mut place[filled..])?;
        if count == 0 {
            return Err(ReplayFault::Truncated);
        }
        filled += count;
    }
    Ok(())
}

/// The next so many bytes.
///
/// # Errors
///
/// `Truncated` where the input has fewer; `Read` where a read failed; `NoMemory`.
pub(crate) fn read_bytes<R: Read>(
    alloc: Global,
    reader: &mut BufReader<R>,
    count: usize,
) -> Result<Items<u8>, ReplayFault>
    ensures bytes { IfOk result (λ bytes. Consumes (reader_remaining R.remaining reader.old)
        (reader_remaining R.remaining reader.new) bytes) }
    ensures all { IfOk result (λ bytes. length bytes ≡ count) }
    ensures fault { IfErr result (λ fault. IsShorter count (reader_remaining R.remaining reader.old) fault) }
{
    let held = reader.buffer();
    if count <= held.len() {
        let bytes = Items::from_slice(alloc, &held[..count])?;
        pass(reader, count);
        return Ok(bytes);
    }
    let mut bytes = vec![in alloc; 0u8; count]?;
    fill(reader, bytes.as_mut_slice())?;
    Ok(Items::from(bytes))
}
