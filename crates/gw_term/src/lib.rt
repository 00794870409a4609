//! Terminations: what is kept of one, what descriptors do to it, and what it answers to an Audit.
#![tactic(auto)]

mod apply;
mod audit;
mod fault;
mod gathered;
mod held;
mod laws;
mod merger;
mod names;
mod places;
mod properties;
mod record;
mod same;
mod settings;
mod streams;
mod tails;
mod target;
mod text;

pub use apply::{Applied, Filled};
pub use fault::ApplyFault;
pub use held::{HeldProperty, HeldTail};
pub use laws::{look_ups_after_a_merge, merges_go_by_field, merges_keep_forms};
pub use merger::Merger;
pub use places::{PerKind, PerStream};
pub use record::{Stream, Termination};
pub use settings::{Setting, Settings};
pub use text::Text;
