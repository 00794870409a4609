//! The datagrams of a burst as they are read.

ghost use Rattle.std.specs.Prelude.{ℕ, List, Err, IfOk};
ghost use Rattle.std.specs.List.{AllZip};
ghost use Rattle.gw_msg.specs.Grammar.{IsReadingOf};
ghost use Rattle.gw_engine.specs.Bursts.{IsReadAs, IsMessageOf};

use crate::datagram::Datagram;
use bumpalo::Bump;
use gw_base::{Code, Items, NoMemory};
use gw_msg::{Message, ReadFault, read_message, skim_message};
use std::alloc::Global;

/// A datagram that was read: who sent it, and its message, or the error that it is answered with.
#[derive(Drop)]
pub(crate) struct ReadDatagram<'a> {
    pub(crate) peer: u32,
    pub(crate) message: Result<Message<'a>, Code>,
}

/// Once the trees of a burst take more bytes, those of later datagrams are not kept. The trees of commands may take
/// some 50 times the bytes of their texts.
const MOST_IN_TREES: usize = 16_777_216;

/// Of a longer datagram no trees are kept.
const MOST_WITH_TREES: usize = 1_048_576;

/// The lists of a typical transaction take up to so many bytes for each byte of its text.
const ROOM_FOR_ONE: usize = 8;

/// An arena begins with no more bytes.
const MOST_ROOM: usize = 8_388_608;

/// The error that a text without a message is answered with.
fn code_of(fault: ReadFault) -> Result<Code, NoMemory>
    ensures { (text : List ℕ) → IsReadingOf text (Err fault) → IfOk result (λ code. IsMessageOf text (Err code)) }
{
    match fault {
        ReadFault::Version => Ok(Code::VersionNotSupported),
        ReadFault::Syntax => Ok(Code::SyntaxError),
        ReadFault::NoMemory => Err(NoMemory),
    }
}

/// Reads a text, and keeps the trees of its requests, or not.
fn read<'a>(alloc: Global, bump: &'a Bump, text: &'a [u8]) -> Result<Message<'a>, ReadFault>
    ensures { IsReadingOf text.now result }
{
    if keeps_trees(bump) && text.len() <= MOST_WITH_TREES {
        read_message(bump, text)
    } else {
        skim_message(alloc, bump, text)
    }
}

/// Reads a datagram.
fn read_datagram<'a>(
    alloc: Global,
    bump: &'a Bump,
    datagram: &'a Datagram,
) -> Result<ReadDatagram<'a>, NoMemory>
    ensures { IfOk result (IsReadAs datagram.now) }
{
    let peer = datagram.peer;
    match read(alloc, bump, datagram.bytes.as_slice()) {
        Ok(message) => Ok(ReadDatagram {
            peer,
            message: Ok(message),
        }),
        Err(fault) => Ok(ReadDatagram {
            peer,
            message: Err(code_of(fault)?),
        }),
    }
}

/// How long the datagrams are, together.
fn bytes_in(burst: &[Datagram]) -> usize {
    burst.iter().fold(0usize, |sum, datagram| {
        sum.saturating_add(datagram.bytes.len())
    })
}

/// An arena for what is read of a burst. It begins with room for the trees of typical transactions.
///
/// # Errors
///
/// Out of memory.
pub(crate) fn arena_for(alloc: Global, burst: &[Datagram]) -> Result<Bump, NoMemory> {
    let room = bytes_in(burst).saturating_mul(ROOM_FOR_ONE).min(MOST_ROOM);
    Ok(Bump::try_with_capacity(alloc, room)?)
}

/// Whether the trees of a burst's requests are kept in its arena while it is executed, as far as it was read. One that
/// is not kept is read again when it is needed, so that the memory for what is read is bounded.
pub(crate) fn keeps_trees(bump: &Bump) -> bool {
    bump.allocated_bytes() <= MOST_IN_TREES
}

/// Reads the datagrams of a burst, one after another. The lists of what is read lie in the arena, and the trees of
/// requests as long as they are kept.
///
/// # Errors
///
/// Out of memory.
pub(crate) fn read_burst<'a>(
    alloc: Global,
    bump: &'a Bump,
    burst: &'a [Datagram],
) -> Result<Items<ReadDatagram<'a>>, NoMemory>
    ensures { IfOk result (AllZip IsReadAs burst.now) }
{
    let mut messages = Items::from(Vec::with_capacity(alloc, burst.len())?);
    for datagram in burst {
        messages.push(read_datagram(alloc, bump, datagram)?)?;
    }
    Ok(messages)
}
