//! The program `h248gw` apart from its streams: its commands, their faults and statuses.
#![tactic(auto)]

mod check;
mod command_line;
mod ended;
mod entry;
mod fault;
mod file;
mod gateway;
mod job;
mod laws;
mod mistake;
mod printing;
mod standard_error;
mod workers;

pub use ended::Ended;
pub use entry::program;
pub use fault::Fault;
pub use job::{Job, Serving};
pub use laws::words_of_each_form_ask_for_their_job;
pub use printing::unreadable_words;
pub use standard_error::{StandardError, Stream};
pub use workers::Workers;
