//! A set of small numbers, one bit each.
#![tactic(auto)]

mod bit_set;
mod bits;

pub use bit_set::BitSet;
