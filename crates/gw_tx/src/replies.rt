//! Replies to actions.

ghost use Rattle.std.specs.Prelude.{◌≡◌, List, IfOk};
ghost use Rattle.gw_refusal.specs.declared.at.At.{At};
ghost use Rattle.gw_reply.specs.declared.context_parts.ContextPart.{ContextPart};
ghost use Rattle.gw_reply.specs.declared.reply.CommandReply.{CommandReply};
ghost use Rattle.gw_reply.specs.ContextParts.{context_part_text};
ghost use Rattle.gw_reply.specs.Replies.{command_reply_text, action_reply_text};
ghost use Rattle.gw_reply.specs.Writers.{inside, written_behind};
ghost use Rattle.gw_table.specs.declared.attempts.Attempts.{Attempts};
ghost use Rattle.gw_tx.specs.LimitedText.{progress};
ghost use Rattle.gw_tx.specs.Transactions.{answered, one_action_reply, replied, action_error};

use crate::limited_text::Progress;
use gw_base::{Code, CtxRef, Items, NoMemory};
use gw_cmd::At;
use gw_reply::{ActionReply, CommandReply, ContextPart, ReplyWriter};
use std::alloc::Global;

/// The ContextID of the reply: the number once the context was made, else as sent.
fn answered(at: At) -> CtxRef
    ensures { result ≡ answered at }
{
    match at {
        At::Null => CtxRef::Null,
        At::Live(number) | At::Each(number) => CtxRef::Num(number),
        At::Unmade(_) => CtxRef::Choose,
    }
}

/// The only reply to an action, behind those that are written.
#[inline(always)]
fn one_action_reply(
    writer: ReplyWriter<ActionReply>,
    reply: ActionReply,
    stopped: bool,
) -> Result<Progress<(), ActionReply>, NoMemory>
    ensures { IfOk result (λ done. done ≡ progress action_reply_text writer (one_action_reply tt reply stopped)) }
{
    Ok(Progress {
        next: (),
        writer: writer.write(reply)?,
        stopped,
    })
}

/// An error of the whole action, which ends the transaction.
pub(crate) fn action_error(
    alloc: Global,
    writer: ReplyWriter<ActionReply>,
    sent: CtxRef,
    code: Code,
) -> Result<Progress<(), ActionReply>, NoMemory>
    ensures { IfOk result (λ done. done ≡ progress action_reply_text writer (action_error sent code)) }
{
    let reply = ActionReply {
        ctx: sent,
        parts: Items::new(alloc),
        result: Err(code),
    };
    one_action_reply(writer, reply, true)
}

/// What an action gave whose commands were attempted, with what is written of its context and of the commands.
#[inline(always)]
pub(crate) fn replied(
    writer: ReplyWriter<ActionReply>,
    parts: ReplyWriter<ContextPart>,
    done: Progress<At, CommandReply>,
) -> Result<Progress<(), ActionReply>, NoMemory>
    ensures { (all : List ContextPart) (a : Attempts At CommandReply) → parts ≡ written_behind context_part_text (inside writer) all → done ≡ progress command_reply_text (inside writer) a → IfOk result (λ reply. reply ≡ progress action_reply_text writer (replied all a)) }
{
    Ok(Progress {
        next: (),
        writer: writer.write_action(answered(done.next), parts, done.writer)?,
        stopped: done.stopped,
    })
}
