//! The properties of a context in an action reply (RFC 3525, Annex B.2, `contextProperties`).

use gw_base::{Items, Link};

/// A property of a context.
#[derive(Drop)]
pub enum ContextPart {
    /// Its priority.
    Priority(u8),
    /// It is an emergency.
    Emergency,
    /// How media flow between its terminations, two at a time, in order.
    Topology(Items<Link>),
}
