//! The answers of a burst.

ghost use Rattle.std.specs.Prelude.{◌≡◌, ◌<◌, ◌^◌, IfOk, length, map};
ghost use Rattle.std.specs.Option.{option_to_list};
ghost use Rattle.gw_board.specs.Boards.{AllClosed};
ghost use Rattle.gw_engine.specs.Phases.{reply_from, text_for, answer_for, answers_of};
ghost use Rattle.gw_engine.specs.Replies.{board_texts};

use crate::datagram::Datagram;
use crate::drawn::{MOST_DRAWN, present_in, push_present};
use crate::items::{BurstItem, Content};
use crate::octets::Octets;
use gw_base::{Code, Items, Mid, NoMemory};
use gw_board::Board;
use gw_draw::{Gate, OpenGate, Workers, draw_map};
use gw_kept::{Class, Kept, Source};
use gw_reply::{TxReply, write_fault, write_reply};
use std::alloc::Global;
use std::thread::Threads;

/// So many bytes of replies are worth one more worker.
const BYTES_FOR_ONE: usize = 1_048_576;

/// The replies to the new requests of a burst, in order. The caller knows that all of them are executed.
fn replies_of<'k>(alloc: Global, board: &'k Board<'_, '_, '_>) -> Result<Vec<&'k [u8]>, NoMemory>
    requires { AllClosed board.now.places }
    ensures { IfOk result (λ replies. map (λ r. r.now) replies.items ≡ board_texts board.now) }
{
    let mut replies = Vec::new(alloc);
    while let Some(reply) = board.reply_at(replies.len()) {
        replies.push(reply)?;
    }
    Ok(replies)
}

/// How long the replies are, together.
fn bytes_in(replies: &[&[u8]]) -> usize {
    replies
        .iter()
        .fold(0usize, |sum, reply| sum.saturating_add(reply.len()))
}

/// A copy of a reply: one that was kept before the burst, or that of one of its new requests.
fn reply_from(
    alloc: Global,
    kept: &Kept,
    replies: &[&[u8]],
    source: Source,
) -> Result<Option<Items<u8>>, NoMemory>
    ensures { IfOk result (λ text. text ≡ reply_from source kept.now (map (λ r. r.now) replies.now)) }
{
    let reply = match source {
        Source::Kept(place) => kept.reply_at(place),
        Source::Place(place) => replies.get(place).copied(),
    };
    match reply {
        Some(bytes) => Ok(Some(Items::from_slice(alloc, bytes)?)),
        None => Ok(None),
    }
}

/// The text of an item's answer. An acknowledgement has none.
fn text_of(
    alloc: Global,
    mid: &Mid,
    kept: &Kept,
    replies: &[&[u8]],
    item: &BurstItem<'_, '_>,
) -> Result<Option<Items<u8>>, NoMemory>
    ensures { IfOk result (λ text. text ≡ text_for mid.now kept.now (map (λ r. r.now) replies.now) item.now) }
{
    match (&item.content, item.class) {
        (Content::Fault(code), _) => Ok(Some(Items::from(write_fault(alloc, *code, mid)?))),
        (Content::Request(_), Class::New) => {
            reply_from(alloc, kept, replies, Source::Place(item.before))
        }
        (Content::Request(_), Class::Repeat(source)) => reply_from(alloc, kept, replies, source),
        (Content::Request(sent), Class::Over) => {
            let refusal = TxReply {
                id: sent.request.id(),
                result: Err(Code::InsufficientResources),
            };
            Ok(Some(Items::from(write_reply(alloc, &refusal, mid)?)))
        }
        (Content::Request(_), Class::Nothing) | (Content::Ack(_), _) => Ok(None),
    }
}

/// The answer to an item, for its peer.
fn answer_to(
    alloc: Global,
    mid: &Mid,
    kept: &Kept,
    replies: &[&[u8]],
    item: &BurstItem<'_, '_>,
) -> Result<Option<Datagram>, NoMemory>
    ensures { IfOk result (λ answer. option_to_list answer ≡ answer_for item.now.peer (text_for mid.now kept.now (map (λ r. r.now) replies.now) item.now)) }
{
    match text_of(alloc, mid, kept, replies, item)? {
        Some(text) => Ok(Some(Datagram {
            peer: item.peer,
            bytes: Octets::from(text),
        })),
        None => Ok(None),
    }
}

/// The answers, one after another.
fn in_turn(
    alloc: Global,
    mid: &Mid,
    kept: &Kept,
    replies: &[&[u8]],
    items: &[BurstItem<'_, '_>],
) -> Result<Items<Datagram>, NoMemory>
    ensures { IfOk result (λ answers. answers ≡ answers_of mid.now kept.now (map (λ r. r.now) replies.now) items.now) }
{
    let mut answers = Items::from(Vec::with_capacity(alloc, items.len())?);
    for item in items {
        push_present(&mut answers, answer_to(alloc, mid, kept, replies, item)?)?;
    }
    Ok(answers)
}

/// The answers, by all of these workers.
fn by_workers<R: Threads + Sync, G: Gate>(
    workers: &Workers<'_, R, G>,
    alloc: Global,
    mid: &Mid,
    kept: &Kept,
    replies: &[&[u8]],
    items: &[BurstItem<'_, '_>],
) -> Result<Items<Datagram>, NoMemory>
    requires few { length items.now < 2 ^ 32 }
    ensures { IfOk result (λ answers. answers ≡ answers_of mid.now kept.now (map (λ r. r.now) replies.now) items.now) }
{
    let answers = draw_map(
        workers.rt,
        alloc,
        workers.count,
        items,
        move |item| answer_to(alloc, mid, kept, replies, item),
        &OpenGate,
    )?;
    present_in(alloc, answers)
}

/// The answers, each for the peer that sent the item, by as many workers as they are worth. The caller knows that
/// every request on the board is executed.
///
/// # Errors
///
/// Out of memory.
pub(crate) fn answers<R: Threads + Sync, G: Gate>(
    workers: &Workers<'_, R, G>,
    alloc: Global,
    mid: &Mid,
    kept: &Kept,
    board: &Board<'_, '_, '_>,
    items: &[BurstItem<'_, '_>],
) -> Result<Items<Datagram>, NoMemory>
    requires { AllClosed board.now.places }
    ensures { IfOk result (λ answers. answers ≡ answers_of mid.now kept.now (board_texts board.now) items.now) }
{
    let replies = replies_of(alloc, board)?;
    let replies = replies.as_slice();
    let workers = workers.for_work(bytes_in(replies), BYTES_FOR_ONE);
    if workers.count == 1 || items.len() > MOST_DRAWN {
        return in_turn(alloc, mid, kept, replies, items);
    }
    by_workers(&workers, alloc, mid, kept, replies, items)
}
