//! The tables of a gateway: terminations by name, and contexts by number.
#![tactic(auto)]

mod attempts;
mod cell;
mod draft;
mod free;
mod in_place;
mod in_use;
mod key_list;
mod key_order;
mod keys;
mod laws;
mod moves;
mod part;
mod place;
mod reserved;
mod row;
mod rows;
mod slots;
mod subtracting;
mod tables;
mod text;
mod undo_log;
mod unused;

pub use attempts::Attempts;
pub use draft::Draft;
pub use free::Target;
pub use key_list::put_in_order;
pub use key_order::compare_keys;
pub use keys::Keys;
pub use laws::{part_put_back, slots_have_names_of_their_own, sound_part};
pub use part::Part;
pub use reserved::{is_reserved, slot_name};
pub use subtracting::what_remains;
pub use tables::Tables;
pub use undo_log::UndoLog;
pub use unused::owns_slot;
