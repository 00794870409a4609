//! Messages of H.248 version 1 in the text encoding, as they are read.
#![tactic(auto)]

mod actions;
mod fault;
mod items;
mod message;
mod properties;
mod read;
mod sender;
mod source;
mod words;

pub use fault::ReadFault;
pub use message::{
    AckRange, Action, Command, ContextItem, ContextProp, Item, Message, Request, Triple,
};
pub use read::{one_answer, one_message, read_message, skim_message};
pub use sender::Sender;
pub use source::RequestSource;
