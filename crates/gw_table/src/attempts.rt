//! What items gave that were executed one after another.

use gw_base::Items;

/// What items gave, up to the first that stopped.
#[derive(Drop)]
pub struct Attempts<S, A> {
    /// From where later items go on.
    pub next: S,
    /// The answers in order.
    pub answers: Items<A>,
    /// Whether nothing more is attempted.
    pub stopped: bool,
}
