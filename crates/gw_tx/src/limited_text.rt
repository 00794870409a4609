//! What is written of a transaction: its replies as they come, within a limit or without.

ghost use Rattle.std.specs.Prelude.{◌≡◌, ◌+◌, ◌<◌, [], List, IfSome, IsNone, length, decimal, Ok as Replies};
ghost use Rattle.gw_reply.specs.declared.reply.ActionReply.{ActionReply};
ghost use Rattle.gw_reply.specs.Replies.{action_reply_text};
ghost use Rattle.gw_reply.specs.Writers.{inside, written_behind};
ghost use Rattle.gw_tx.specs.LimitedText.{limited_text_of, within, IsLimited};

use gw_base::{Items, TxId};
use gw_reply::{ActionReply, ReplyWriter};
use itoa::Buffer;
use std::alloc::Global;

/// What attempts came to whose replies are written as they come.
#[derive(Drop)]
pub(crate) struct Progress<S, A> {
    /// From where later items go on.
    pub next: S,
    /// What is written by now.
    pub writer: ReplyWriter<A>,
    /// Whether nothing more is attempted.
    pub stopped: bool,
}

/// The reply to a transaction within a limit.
#[derive(Drop)]
pub enum LimitedText {
    /// The text of its action replies, each behind a comma: that of its whole reply is not longer than the limit.
    Whole(Items<u8>),
    /// The text of its reply is longer than the limit: no reply was kept.
    TooLong,
}

impl LimitedText {
    /// The block that the texts lay in, with nothing, to be used again.
    pub fn into_block(self, alloc: Global) -> Items<u8>
        ensures { result ≡ [] }
    {
        match self {
            LimitedText::Whole(text) => {
                let mut block = text;
                block.clear();
                block
            }
            LimitedText::TooLong => Items::new(alloc),
        }
    }
}

/// The writer of the parts of an action, before the first of them: it has no more room than that of the action.
pub(crate) fn inside<T: Drop>(alloc: Global, writer: &ReplyWriter<ActionReply>) -> ReplyWriter<T>
    ensures { result ≡ inside writer.now }
{
    match writer {
        ReplyWriter::All(_) => ReplyWriter::All(Items::new(alloc)),
        ReplyWriter::Within(_, room) => ReplyWriter::Within(Items::new(alloc), *room),
        ReplyWriter::TooLong => ReplyWriter::TooLong,
    }
}

/// The room between the braces of a reply of this number, whose text has so many bytes at most: `Reply=<number>{}`
/// stands around it.
fn room_in_braces(id: TxId, limit: usize) -> Option<usize>
    ensures room { IfSome result (λ left. left + (length (decimal id.0) + 8) ≡ limit) }
    ensures none { IsNone result → limit < length (decimal id.0) + 8 }
{
    let behind_frame = limit.checked_sub(b"Reply={}".len())?;
    behind_frame.checked_sub(Buffer::new().format(id.0).len())
}

/// The writer of a transaction whose text has so many bytes at most, before its first action. It writes into the
/// block, of which nothing else is kept. The first action has no comma before it, so there is room for one more.
pub(crate) fn writer_within(block: Items<u8>, id: TxId, limit: usize) -> ReplyWriter<ActionReply>
    ensures written { (replies : List ActionReply) → limited_text_of (written_behind action_reply_text result replies) ≡ within limit (record { id = id; result = Replies replies }) }
    ensures limited { IsLimited result }
{
    let mut text = block;
    text.clear();
    match room_in_braces(id, limit) {
        Some(left) => ReplyWriter::Within(text, left + 1),
        None => ReplyWriter::TooLong,
    }
}

/// The reply to a transaction within a limit, behind its last action.
pub(crate) fn limited_text_of(writer: ReplyWriter<ActionReply>) -> LimitedText
    requires { IsLimited writer }
    ensures { result ≡ limited_text_of writer }
{
    match writer {
        ReplyWriter::Within(text, _) => LimitedText::Whole(text),
        ReplyWriter::TooLong => LimitedText::TooLong,
        ReplyWriter::All(_) => unreachable!(),
    }
}
