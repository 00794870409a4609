//! Cases as lines of text, and the transcript of a case program: each case with its answer below it.
#![tactic(auto)]

mod configuration;
mod escape;
mod fault;
mod lines;
mod page;
mod split;
mod words;

pub use configuration::config_of;
pub use escape::decoded;
pub use fault::CaseFault;
pub use lines::{CaseRunner, transcript};
pub use page::Page;
pub use split::{split_at_byte, split_word};
pub use words::{as_text, code_of, context_of, number_of};
