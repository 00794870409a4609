//! The transactions of a burst side by side: what may be open at the same time, and what it comes to.
#![tactic(auto)]

mod alone;
mod board;
mod board_entry;
mod chain;
mod chains;
mod close;
mod fault;
mod job;
mod laws;
mod open;
mod plan;
mod profile;
mod reply;
mod requested;
mod side_by_side;
mod undo_log;
mod undo_step;
mod waiting;

pub use board::Board;
pub use fault::{BoardFault, OpenFault};
pub use job::{Done, Job, carry};
pub use laws::{
    chains_go_side_by_side, events_leave_what_a_state_comes_to, lawful_events_give_the_fold,
    open_jobs_may_be_drawn, planned_places_are_opened, undo_logs_give_the_tables_back,
    waves_may_be_opened, what_is_open_may_be_closed,
};
pub use profile::Profile;
pub use requested::{BurstRequest, RequestRef};
