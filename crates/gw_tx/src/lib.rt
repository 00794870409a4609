//! One transaction on a draft of the tables.
#![tactic(auto)]

mod actions;
mod commands;
mod context_parts;
mod contexts;
mod laws;
mod limited_text;
mod links;
mod owned;
mod properties;
mod replies;
mod requests;
mod setting;

pub use laws::{
    answers_can_be_read, keys_of_requests, later_slots_stay_free,
    transactions_keep_tables_well_formed, what_others_own_stays_free,
};
pub use limited_text::LimitedText;
pub use links::linked_names;
pub use owned::{entries_behind, next_entry};
pub use requests::{transaction, transaction_within};
