//! What a command names and requests, whom it is for, and why it is refused by its form alone.
#![tactic(auto)]

mod at;
mod forms;
mod named;
mod requested;

pub use at::At;
pub use forms::refusal_by_form;
pub use named::{has_targets, targets};
pub use requested::{first_audit, is_add, is_wildcard, matches, requested_service, requests_media};
