//! What case programs watch workers with: a meeting, to which each job comes, and a count for each of them.
#![tactic(auto)]

mod meeting;
mod tally;

pub use meeting::Meeting;
pub use tally::Tally;
