//! What a command makes of a termination.

use gw_base::{CtxNum, Items};
use gw_reply::ReplyPart;
use gw_term::{Filled, Termination};

/// What becomes of a termination and of who is in which context.
#[derive(Drop)]
pub(crate) enum Change {
    /// Nothing.
    Stays,
    /// Its record becomes this one, in the same place.
    Becomes(Termination),
    /// It joins the context, with this record.
    Joins(CtxNum, Termination),
    /// It leaves the first context and joins the second, with this record.
    Crosses(CtxNum, CtxNum, Termination),
    /// It leaves the context, and has this record, or none.
    Leaves(CtxNum, Option<Termination>),
}

/// What becomes of a termination that is not refused.
#[derive(Drop)]
pub(crate) struct Plan {
    /// The change.
    pub change: Change,
    /// The streams of the new record whose Local was filled.
    pub filled: Filled,
}

/// What is decided of a termination that is not refused.
#[derive(Drop)]
pub(crate) struct Decided {
    /// What becomes of it.
    pub change: Change,
    /// What its reply has.
    pub parts: Items<ReplyPart>,
}
