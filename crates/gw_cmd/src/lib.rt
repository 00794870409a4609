//! One command on a draft of the tables.
#![tactic(auto)]

mod change;
mod decide;
mod effects;
mod execute;
mod idle;
mod laws;
mod members;
mod outcome;
mod parts;
mod prepared;
mod prepared_list;
mod refusal;
mod replies;
mod root;
mod tables;
mod targets;
mod task;

pub use execute::{command, command_written};
pub use gw_refusal::At;
pub use laws::{
    commands_keep_forms, commands_keep_tables_well_formed, commands_keep_to_their_keys,
    commands_on_other_keys_change_places, keys_are_needed, the_whole_is_a_key_of_commands_for_all,
};
pub use outcome::{CmdOutcome, CmdWritten};
pub use prepared::Prepared;
pub use prepared_list::all_prepared;
