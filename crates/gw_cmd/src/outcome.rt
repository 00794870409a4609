//! What a command gives, beside the changed tables.

use gw_base::{Code, Items};
use gw_reply::{CommandReply, ReplyWriter};

/// What a command gave.
#[derive(Drop)]
pub struct CmdOutcome {
    /// Its replies: one, or one for each termination that it was for.
    pub replies: Items<CommandReply>,
    /// Whether one of them is an error.
    pub failed: bool,
    /// Whether it made its action's context.
    pub made: bool,
}

/// What a command gave whose replies are written behind those before them.
#[derive(Drop)]
pub struct CmdWritten {
    /// What is written by now.
    pub written: ReplyWriter<CommandReply>,
    /// Whether one of its replies is an error.
    pub failed: bool,
    /// Whether it made its action's context.
    pub made: bool,
}

/// What came of the targets of a command.
#[derive(Drop)]
pub(crate) struct Seen {
    /// What is written by now.
    pub written: ReplyWriter<CommandReply>,
    /// The first error, if there is one.
    pub first_error: Option<Code>,
    /// Whether the command was done to one of them.
    pub any_done: bool,
}
