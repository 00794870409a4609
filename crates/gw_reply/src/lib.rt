//! Replies, and their text in the H.248 text encoding.
#![tactic(auto)]

mod context_parts;
mod context_text;
mod error;
mod identifiers;
mod message;
mod part_text;
mod parts;
mod reply;
mod tree_text;
mod wire;
mod writer;

pub use context_parts::ContextPart;
pub use message::{write_fault, write_framed_reply, write_reply};
pub use parts::{
    AuditReply, FilledStream, KeptProperty, KeptTail, MediaReply, ReplyPart, StreamReply,
};
pub use reply::{ActionReply, CommandReply, TxReply};
pub use wire::{Written, write_number};
pub use writer::ReplyWriter;
