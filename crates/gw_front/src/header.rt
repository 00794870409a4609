//! The lines of headers: what one says, and reading one.

ghost use Rattle.std.specs.Prelude.{◌≡◌, ◌<◌, ◌≤◌, ◌==◌, ◌++◌, ◌∷◌, ◌+◌, [], ℕ, List, false, length, take, MatchOption, IfOk, IfErr, IfSome, IfNone, codes};
ghost use Rattle.std.specs.List.{list_any};
ghost use Rattle.std.specs.Io.Buffered.{reader_buffer, reader_remaining};
ghost use Rattle.std.specs.Io.KnownBytes.{Consumes};
ghost use Rattle.gw_front.specs.Records.{IsLength, IsRecordHeader};
ghost use Rattle.gw_front.specs.RecordFaults.{HasNoLineFeed, longest_line};
ghost use Rattle.gw_front.specs.Headers.{SaysHeader};
ghost use Rattle.gw_front.specs.Inputs.{Ends, IsBadLine, IsHeaderRead};
ghost use Rattle.gw_front.specs.declared.header.Header.{Header as Said};

use crate::reading::{pass, read_byte};
use crate::replay_fault::ReplayFault;
use arrayvec::ArrayVec;
use gw_config::{behind, number_of};
use std::io::{BufReader, Read};

/// How many bytes a line of a header may have, its line feed not counted, and one more.
const LINE_ROOM: usize = 33;

/// What a line of a header says.
#[derive(Clone, Copy)]
pub(crate) enum Header {
    /// `.`: the burst ends.
    Stop,
    /// `D`: a datagram comes.
    Datagram {
        /// Who it is from.
        peer: u32,
        /// How many bytes it has.
        size: u32,
    },
}

/// What stands before the first space, and what stands behind it.
fn cut(text: &[u8]) -> Option<(&[u8], &[u8])>
    ensures none { IfNone result (list_any (λ c. c == 32) text.now ≡ false) }
    ensures split { IfSome result (λ r. text.now ≡ r.0.now ++ 32 ∷ r.1.now) }
    ensures first { IfSome result (λ r. list_any (λ c. c == 32) r.0.now ≡ false) }
{
    for (i, b) in text.iter().enumerate() {
        if *b == b' ' {
            return Some((&text[..i], &text[i + 1..]));
        }
    }
    None
}

/// The length that 1 to 5 digits write.
fn length_of(text: &[u8]) -> Option<u32>
    ensures { MatchOption result ((n : ℕ) → ¬ IsLength n text.now) (λ n. IsLength n text.now) }
{
    if text.len() > 5 {
        return None;
    }
    number_of(text)
}

/// The peer and the length of a datagram's header.
fn datagram_of(line: &[u8]) -> Option<(u32, u32)>
    ensures { MatchOption result ((peer len : ℕ) → ¬ IsRecordHeader peer len line.now)
        (λ h. IsRecordHeader h.0 h.1 line.now) }
{
    let (peer, size) = cut(behind(line, b"D ")?)?;
    Some((number_of(peer)?, length_of(size)?))
}

/// What the line says, if it is of a form.
pub(crate) fn header_of(line: &[u8]) -> Option<Header>
    ensures { MatchOption result ((header : Said) → ¬ SaysHeader header line.now)
        (λ header. SaysHeader header line.now) }
{
    if line == b".".as_slice() {
        return Some(Header::Stop);
    }
    let (peer, size) = datagram_of(line)?;
    Some(Header::Datagram { peer, size })
}

/// The line that the bytes begin with, without its line feed, where that is among the first 33.
fn line_in(held: &[u8]) -> Option<&[u8]>
    ensures line { IfSome result (λ line. take (length line.now + 1) held.now ≡ line.now ++ 10 ∷ []) }
    ensures plain { IfSome result (λ line. HasNoLineFeed line.now) }
    ensures short { IfSome result (λ line. length line.now ≤ longest_line) }
{
    let front = &held[..held.len().min(LINE_ROOM)];
    for (i, b) in front.iter().enumerate() {
        if *b == b'\n' {
            return Some(&front[..i]);
        }
    }
    None
}

/// The next line of at most 32 bytes, without its line feed, byte by byte; none at the end of the input.
///
/// # Errors
///
/// `BadHeader` where the first 33 bytes have no line feed among them; `Truncated` where the input ends behind fewer,
/// but one or more; `Read` where a read failed.
fn read_line<R: Read>(
    reader: &mut BufReader<R>,
) -> Result<Option<ArrayVec<u8, LINE_ROOM>>, ReplayFault>
    ensures line { IfOk result (λ read. IfSome read (λ line. Consumes (reader_remaining R.remaining reader.old)
        (reader_remaining R.remaining reader.new) (line.items ++ 10 ∷ []))) }
    ensures plain { IfOk result (λ read. IfSome read (λ line. HasNoLineFeed line.items)) }
    ensures short { IfOk result (λ read. IfSome read (λ line. length line.items ≤ longest_line)) }
    ensures end { IfOk result (λ read. IfNone read (Ends (reader_remaining R.remaining reader.old)
        (reader_remaining R.remaining reader.new))) }
    ensures fault { IfErr result (λ fault. IsBadLine (reader_remaining R.remaining reader.old) fault) }
{
    let mut line = ArrayVec::new();
    while !line.is_full() {
        match read_byte(reader)? {
            Some(b'\n') => return Ok(Some(line)),
            Some(byte) => line.push(byte),
            None if line.is_empty() => return Ok(None),
            None => return Err(ReplayFault::Truncated),
        }
    }
    Err(ReplayFault::BadHeader)
}

/// What the next line says, read byte by byte; none at the end of the input.
fn read_apart<R: Read>(reader: &mut BufReader<R>) -> Result<Option<Header>, ReplayFault>
    ensures { IsHeaderRead (reader_remaining R.remaining reader.old) (reader_remaining R.remaining reader.new) result }
{
    let Some(line) = read_line(reader)? else {
        return Ok(None);
    };
    match header_of(line.as_slice()) {
        Some(header) => Ok(Some(header)),
        None => Err(ReplayFault::BadHeader),
    }
}

/// What the next line says; none at the end of the input. A line that was read ahead whole is looked at where it lies.
///
/// # Errors
///
/// `BadHeader` where the first 33 bytes have no line feed among them, or the line is of no form; `Truncated` where the
/// input ends behind fewer, but one or more; `Read` where a read failed.
pub(crate) fn read_header<R: Read>(reader: &mut BufReader<R>) -> Result<Option<Header>, ReplayFault>
    ensures { IsHeaderRead (reader_remaining R.remaining reader.old) (reader_remaining R.remaining reader.new) result }
{
    let Some(line) = line_in(reader.buffer()) else {
        return read_apart(reader);
    };
    let (header, size) = (header_of(line), line.len());
    pass(reader, size + 1);
    match header {
        Some(header) => Ok(Some(header)),
        None => Err(ReplayFault::BadHeader),
    }
}
