//! Reading bursts of datagrams, each record of one after another.

ghost use Rattle.std.specs.Prelude.{◌≡◌, ◌≤◌, ◌++◌, ◌∷◌, [], length, IfOk, IfErr};
ghost use Rattle.std.specs.Io.Buffered.{reader_remaining};
ghost use Rattle.std.specs.Io.KnownBytes.{Consumes};
ghost use Rattle.gw_front.specs.Records.{most_datagrams};
ghost use Rattle.gw_front.specs.Inputs.{IsBadDatagram, IsPiece, IsNext};

use crate::header::{Header, read_header};
use crate::reading::{read_byte, read_bytes};
use crate::replay_fault::ReplayFault;
use gw_base::Items;
use gw_engine::{Datagram, Octets};
use std::alloc::Global;
use std::io::{BufReader, Read};

/// How many bytes a datagram may have: what fits a UDP datagram over IPv4.
const LONGEST_DATAGRAM: u32 = 65_507;

/// How many datagrams a burst may have.
const MOST_DATAGRAMS: usize = 256;

/// One record.
#[derive(Drop)]
enum Piece {
    /// A datagram of the burst.
    Datagram(Datagram),
    /// The burst ends.
    Stop,
    /// The input ends.
    End,
}

/// What comes next in an input.
#[derive(Drop)]
pub(crate) enum Next {
    /// A burst that its line `.` ends.
    Burst(Items<Datagram>),
    /// A burst of one datagram or more that the end of the input ends.
    Last(Items<Datagram>),
    /// Nothing.
    End,
}

/// The bytes of a datagram and the line feed behind them.
fn read_datagram<R: Read>(
    alloc: Global,
    reader: &mut BufReader<R>,
    peer: u32,
    size: usize,
) -> Result<Datagram, ReplayFault>
    ensures peer { IfOk result (λ d. d.peer ≡ peer) }
    ensures size { IfOk result (λ d. length d.bytes ≡ size) }
    ensures bytes { IfOk result (λ d. Consumes (reader_remaining R.remaining reader.old)
        (reader_remaining R.remaining reader.new) (d.bytes ++ 10 ∷ [])) }
    ensures fault { IfErr result (λ fault. IsBadDatagram size (reader_remaining R.remaining reader.old) fault) }
{
    let bytes = Octets::from(read_bytes(alloc, reader, size)?);
    match read_byte(reader)? {
        Some(b'\n') => Ok(Datagram { peer, bytes }),
        Some(_) => Err(ReplayFault::BadHeader),
        None => Err(ReplayFault::Truncated),
    }
}

/// The next record of a burst that has so many datagrams before it.
fn next_piece<R: Read>(
    alloc: Global,
    reader: &mut BufReader<R>,
    before: usize,
) -> Result<Piece, ReplayFault>
    requires { before ≤ most_datagrams }
    ensures { IsPiece before (reader_remaining R.remaining reader.old)
        (reader_remaining R.remaining reader.new) result }
{
    match read_header(reader)? {
        Some(Header::Stop) => Ok(Piece::Stop),
        Some(Header::Datagram { peer, size }) => {
            if size > LONGEST_DATAGRAM || before == MOST_DATAGRAMS {
                return Err(ReplayFault::TooLong);
            }
            let datagram = read_datagram(alloc, reader, peer, size as usize)?;
            Ok(Piece::Datagram(datagram))
        }
        None => Ok(Piece::End),
    }
}

/// A burst has room for so many datagrams before its list grows.
const ROOM_AT_FIRST: usize = 16;

/// The next burst. Nothing is read behind its line `.`, nor behind the end of the input.
///
/// # Errors
///
/// `BadHeader`, `Truncated` and `TooLong` where the burst has that fault first; `Read` where a read failed; `NoMemory`.
pub(crate) fn next_burst<R: Read>(
    alloc: Global,
    reader: &mut BufReader<R>,
) -> Result<Next, ReplayFault>
    ensures { IsNext (reader_remaining R.remaining reader.old) (reader_remaining R.remaining reader.new) result }
{
    let mut burst = Items::from(Vec::with_capacity(alloc, ROOM_AT_FIRST)?);
    loop {
        match next_piece(alloc, reader, burst.len())? {
            Piece::Datagram(datagram) => burst.push(datagram)?,
            Piece::Stop => return Ok(Next::Burst(burst)),
            Piece::End if burst.is_empty() => return Ok(Next::End),
            Piece::End => return Ok(Next::Last(burst)),
        }
    }
}
