//! The words of the text encoding: scans at a place in a text, the tokens of the grammar, and lists of what is read.
#![tactic(auto)]

mod bracket;
mod class;
mod cursor;
mod fault;
mod group;
mod laws;
mod lengths;
mod number;
mod octets;
pub mod parts;
mod space;
mod token;

pub use cursor::{Cursor, Uint32};
pub use fault::{ParseFault, ScanFault};
pub use laws::{spans_are_one, tokens_read_back};
pub use token::{Token, token_of};
