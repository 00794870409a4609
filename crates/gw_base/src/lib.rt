//! The words that every layer of the gateway speaks: names, references, numbers and codes.
#![tactic(auto)]

mod bytes;
mod choose;
mod code;
mod command_words;
mod config;
mod context_words;
mod fault;
mod held;
mod ids;
mod inline;
mod inline_order;
mod items;
mod key;
mod listed;
mod media;
mod mid;
mod name;
mod short;
mod span;
mod term_ref;

pub use bytes::is_digit;
pub use code::Code;
pub use command_words::{CtxRef, Rules, Service, Verb};
pub use config::Config;
pub use context_words::{Flow, Link};
pub use fault::{NameFault, NoMemory};
pub use held::Held;
pub use ids::{CtxNum, TxId};
pub use items::Items;
pub use key::Key;
pub use listed::Listed;
pub use media::MediaAddr;
pub use mid::Mid;
pub use name::TermName;
pub use short::Short;
pub use span::Span;
pub use term_ref::{Pattern, TermRef};
