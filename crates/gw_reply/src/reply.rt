//! The tree of a transaction's reply (RFC 3525, section 8.2.2).

use crate::context_parts::ContextPart;
use crate::parts::ReplyPart;
use gw_base::{Code, CtxRef, Items, TermRef, TxId, Verb};

/// The reply to one transaction.
#[derive(Drop)]
pub struct TxReply {
    /// The number of the request.
    pub id: TxId,
    /// The action replies in order, or the error that stands for the whole transaction.
    pub result: Result<Items<ActionReply>, Code>,
}

/// The reply to one action, in one context.
#[derive(Drop)]
pub struct ActionReply {
    /// The context: its number once it was made, else as sent.
    pub ctx: CtxRef,
    /// Properties of the context itself, in front of the command replies.
    pub parts: Items<ContextPart>,
    /// The command replies in order, or the error that stands for the whole action.
    pub result: Result<Items<CommandReply>, Code>,
}

/// The reply to one command on one termination, or on all that a wildcard matched.
pub struct CommandReply {
    /// The command.
    pub verb: Verb,
    /// The termination, or the TerminationID as sent where the command was refused before it had one.
    pub term: TermRef,
    /// Its parts, none where the command was executed and has nothing to report, or why it was refused.
    pub result: Result<Items<ReplyPart>, Code>,
}

// By hand: a function that drops a reply then has one call, where a derived impl would be inlined field by field.
impl Drop for CommandReply {
    fn drop(self) {
        let CommandReply {
            verb: _,
            term: _,
            result: _,
        } = self;
    }
}
