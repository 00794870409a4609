//! Replies that are kept for repeats, what acknowledgements remove, and which requests of a burst are repeats.
#![tactic(auto)]

mod change;
mod class;
mod classify;
mod entry;
mod forget;
mod index;
mod kept;
mod laws;
mod order;
mod point;
mod ring;
mod rising;
mod row;

pub use change::Turn;
pub use class::{Class, Source};
pub use entry::{Entry, RequestKey};
pub use kept::Kept;
pub use laws::{
    changes_go_in_turn, classes_go_in_turn, new_pairs_have_keys_of_their_own,
    repeats_get_kept_replies, what_is_acknowledged_is_not_kept, what_is_no_repeat_is_not_kept,
};
pub use point::{BorrowedKey, Point, Ranges, Removal};
