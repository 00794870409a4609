//! Replies that are written as they come, within a limit on their text.

ghost use Rattle.std.specs.Prelude.{◌≡◌, ◌∷◌, ◌++◌, [], List, IfOk, Ok as Replies};
ghost use Rattle.gw_reply.specs.ContextParts.{context_part_text};
ghost use Rattle.gw_reply.specs.Lists.{comma, later};
ghost use Rattle.gw_reply.specs.Replies.{action_reply_text, command_reply_text, framed};
ghost use Rattle.gw_reply.specs.Writers.{inside, written_behind, written_within};
ghost use Rattle.gw_reply.specs.declared.context_parts.ContextPart.{ContextPart as Part};
ghost use Rattle.gw_reply.specs.declared.reply.CommandReply.{CommandReply as Reply};
ghost use Rattle.gw_reply.specs.declared.writer.ReplyWriter.TheVariants.{All, Within};

use crate::context_parts::ContextPart;
use crate::reply::{ActionReply, CommandReply};
use crate::tree_text::write_framed_action;
use crate::wire::Written;
use gw_base::{CtxRef, Items, NoMemory};

/// Replies so far, to which further ones are added.
#[derive(Drop)]
pub enum ReplyWriter<T> {
    /// All of them, however long.
    All(Items<T>),
    /// The text of all of them, each behind a comma, and for how many bytes more there is room.
    Within(Items<u8>, usize),
    /// There was no room for all of them: none is kept, and nothing more need be written.
    TooLong,
}

/// Room for so many bytes is made at once: most replies need no more.
const ROOM: usize = 256;

/// The text, with room for more of it.
#[inline(always)]
fn with_room(text: Items<u8>) -> Result<Vec<u8>, NoMemory>
    ensures { IfOk result (λ out. out.items ≡ text) }
{
    let mut out = text.into_vec();
    if out.capacity() == 0 {
        out.reserve(ROOM)?;
    }
    Ok(out)
}

/// The text of a reply goes behind those that are written, and a comma before it.
#[inline(always)]
fn with_text<T: Written>(text: Items<u8>, reply: &T) -> Result<Items<u8>, NoMemory>
    ensures { IfOk result (λ all. all ≡ text ++ later T.text (reply.now ∷ [])) }
{
    let mut out = with_room(text)?;
    out.push(b',')?;
    reply.write_to(&mut out)?;
    Ok(Items::from(out))
}

impl<T: Written + Drop> ReplyWriter<T> {
    /// One reply more, behind those that are written. The work is linear in the text of the reply.
    ///
    /// # Errors
    ///
    /// Out of memory.
    #[inline(always)]
    pub fn write(self, reply: T) -> Result<ReplyWriter<T>, NoMemory>
        ensures { IfOk result (λ written. written ≡ written_behind T.text self (reply ∷ [])) }
    {
        match self {
            ReplyWriter::All(mut replies) => {
                replies.push(reply)?;
                Ok(ReplyWriter::All(replies))
            }
            ReplyWriter::Within(text, room) => {
                let before = text.len();
                let all = with_text(text, &reply)?;
                match room.checked_sub(all.len() - before) {
                    Some(left) => Ok(ReplyWriter::Within(all, left)),
                    None => Ok(ReplyWriter::TooLong),
                }
            }
            ReplyWriter::TooLong => Ok(ReplyWriter::TooLong),
        }
    }
}

/// One text behind another. Where one of them is empty, nothing is copied.
#[inline(always)]
fn joined(first: Items<u8>, second: Items<u8>) -> Result<Items<u8>, NoMemory>
    ensures { IfOk result (λ both. both ≡ first ++ second) }
{
    if first.is_empty() {
        return Ok(second);
    }
    let mut both = first;
    both.append(second)?;
    Ok(both)
}

/// The reply to an action goes last in a list.
#[inline(always)]
fn with_listed(
    front: Items<ActionReply>,
    ctx: CtxRef,
    parts: ReplyWriter<ContextPart>,
    replies: ReplyWriter<CommandReply>,
) -> Result<ReplyWriter<ActionReply>, NoMemory>
    ensures { (props : List Part) (done : List Reply) → parts ≡ All props → replies ≡ All done → IfOk result (λ all. all ≡ All (front ++ record { ctx = ctx; parts = props; result = Replies done } ∷ [])) }
{
    let mut front = front;
    match (parts, replies) {
        (ReplyWriter::All(parts), ReplyWriter::All(replies)) => {
            front.push(ActionReply {
                ctx,
                parts,
                result: Ok(replies),
            })?;
            Ok(ReplyWriter::All(front))
        }
        _ => Ok(ReplyWriter::TooLong),
    }
}

/// The reply to an action goes last in a text, where there is room for it.
#[inline(always)]
fn with_action(
    front: Items<u8>,
    room: usize,
    ctx: &CtxRef,
    inner: Items<u8>,
) -> Result<ReplyWriter<ActionReply>, NoMemory>
    ensures { IfOk result (λ all. all ≡ written_within front (comma ∷ framed ctx.now inner) room) }
{
    let before = front.len();
    let mut all = with_room(front)?;
    write_framed_action(ctx, inner.as_slice(), &mut all)?;
    match room.checked_sub(all.len() - before) {
        Some(left) => Ok(ReplyWriter::Within(Items::from(all), left)),
        None => Ok(ReplyWriter::TooLong),
    }
}

/// The same of what is written of the context and of the commands: where one of them is too long, so is the action.
#[inline(always)]
fn with_written(
    front: Items<u8>,
    room: usize,
    ctx: CtxRef,
    parts: ReplyWriter<ContextPart>,
    replies: ReplyWriter<CommandReply>,
) -> Result<ReplyWriter<ActionReply>, NoMemory>
    ensures { (props : List Part) (done : List Reply) → parts ≡ written_within [] (later context_part_text props) room → replies ≡ written_within [] (later command_reply_text done) room → IfOk result (λ all. all ≡ written_behind action_reply_text (Within front room) (record { ctx = ctx; parts = props; result = Replies done } ∷ [])) }
{
    let ReplyWriter::Within(parts, _) = parts else {
        return Ok(ReplyWriter::TooLong);
    };
    let ReplyWriter::Within(replies, _) = replies else {
        return Ok(ReplyWriter::TooLong);
    };
    with_action(front, room, &ctx, joined(parts, replies)?)
}

impl ReplyWriter<ActionReply> {
    /// The reply to an action in this context, behind those that are written, from what is written of the context
    /// itself and of the commands, each of both within the room that there was for the action.
    ///
    /// # Errors
    ///
    /// Out of memory.
    #[inline(always)]
    pub fn write_action(
        self,
        ctx: CtxRef,
        parts: ReplyWriter<ContextPart>,
        replies: ReplyWriter<CommandReply>,
    ) -> Result<ReplyWriter<ActionReply>, NoMemory>
        ensures { (props : List Part) (done : List Reply) → parts ≡ written_behind context_part_text (inside self) props → replies ≡ written_behind command_reply_text (inside self) done → IfOk result (λ all. all ≡ written_behind action_reply_text self (record { ctx = ctx; parts = props; result = Replies done } ∷ [])) }
    {
        match self {
            ReplyWriter::All(front) => with_listed(front, ctx, parts, replies),
            ReplyWriter::Within(front, room) => with_written(front, room, ctx, parts, replies),
            ReplyWriter::TooLong => Ok(ReplyWriter::TooLong),
        }
    }
}
