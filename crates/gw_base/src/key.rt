//! The keys of a gateway's tables.

use crate::ids::CtxNum;
use crate::name::TermName;

/// An entry of the tables, or all of them (own): what a transaction may read and change is a list of keys.
#[derive(Clone, Copy, PartialEq, Eq)]
pub enum Key {
    /// The termination of a name.
    Term(TermName),
    /// The context with a number.
    Ctx(CtxNum),
    /// Every entry, those that are still to come among them.
    Whole,
}
