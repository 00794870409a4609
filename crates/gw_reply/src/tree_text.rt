//! The text of replies to commands, actions and transactions (RFC 3525, section 8.2.2 and Annex B.2).

ghost use Rattle.std.specs.Prelude.{◌≡◌, ◌∷◌, ◌++◌, OnOk, codes};
ghost use Rattle.gw_reply.specs.Lists.{comma};
ghost use Rattle.gw_reply.specs.Replies.{body_text, framed, inner_text};

use crate::context_parts::ContextPart;
use crate::identifiers::{write_command, write_context};
use crate::parts::ReplyPart;
use crate::reply::{ActionReply, CommandReply, TxReply};
use crate::wire::{Written, write_opening, write_parts, write_replies};
use gw_base::{Code, CtxRef, Items};
use std::alloc::AllocError;

/// What follows the TerminationID: the parts in braces, if there are any, or an error in braces.
fn write_body(outcome: &Result<Items<ReplyPart>, Code>, out: &mut Vec<u8>) -> Result<(), AllocError>
    ensures { OnOk result (out.new.items ≡ out.old.items ++ body_text outcome.now) }
{
    match outcome {
        Ok(parts) if parts.is_empty() => Ok(()),
        Ok(parts) => {
            out.push(b'{')?;
            write_parts(false, parts.as_slice(), out)?;
            out.push(b'}')?;
            Ok(())
        }
        Err(code) => {
            out.push(b'{')?;
            code.write_to(out)?;
            out.push(b'}')?;
            Ok(())
        }
    }
}

impl Written for CommandReply {
    ghost use Rattle.gw_reply.specs.Replies.{command_reply_text};

    ghost text = { command_reply_text };

    fn write_to(&self, out: &mut Vec<u8>) -> Result<(), AllocError> {
        write_command(self.verb, out)?;
        self.term.write_to(out)?;
        write_body(&self.result, out)
    }
}

/// What stands between the braces of an action reply: the properties of its context, and behind them the command
/// replies.
fn write_inner(
    parts: &[ContextPart],
    outcome: &Result<Items<CommandReply>, Code>,
    out: &mut Vec<u8>,
) -> Result<(), AllocError>
    ensures { OnOk result (out.new.items ≡ out.old.items ++ inner_text parts.now outcome.now) }
{
    write_parts(false, parts, out)?;
    write_replies(!parts.is_empty(), outcome, out)
}

impl Written for ActionReply {
    ghost use Rattle.gw_reply.specs.Replies.{action_reply_text};

    ghost text = { action_reply_text };

    fn write_to(&self, out: &mut Vec<u8>) -> Result<(), AllocError> {
        out.extend_from_slice(b"Context=")?;
        write_context(&self.ctx, out)?;
        write_inner(self.parts.as_slice(), &self.result, out)?;
        out.push(b'}')?;
        Ok(())
    }
}

/// The reply to an action in this context, behind a comma: from what stands between its braces, where each part of
/// that has a comma before it.
pub(crate) fn write_framed_action(
    ctx: &CtxRef,
    inner: &[u8],
    out: &mut Vec<u8>,
) -> Result<(), AllocError>
    ensures { OnOk result (out.new.items ≡ out.old.items ++ comma ∷ framed ctx.now inner.now) }
{
    out.extend_from_slice(b",Context=")?;
    write_context(ctx, out)?;
    if let [_, rest @ ..] = inner {
        out.extend_from_slice(rest)?;
    }
    out.push(b'}')?;
    Ok(())
}

impl Written for TxReply {
    ghost use Rattle.gw_reply.specs.Replies.{transaction_reply_text};

    ghost text = { transaction_reply_text };

    fn write_to(&self, out: &mut Vec<u8>) -> Result<(), AllocError> {
        out.extend_from_slice(b"Reply=")?;
        write_opening(self.id.0, out)?;
        write_replies(false, &self.result, out)?;
        out.push(b'}')?;
        Ok(())
    }
}
