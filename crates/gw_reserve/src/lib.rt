//! Who owns which identifier: the context numbers and the slots that a burst's `$` get.
#![tactic(auto)]

mod laws;
mod numbers;
mod order;
mod owned;
mod owners;
mod slots;

pub use laws::what_is_owned_is_fresh;
pub use owned::Owned;
pub use owners::{Cursors, Reservation};
