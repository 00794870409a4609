//! What stands at a prepared key.

ghost use Rattle.std.specs.Prelude.{◌≡◌, Some, is_some, option_copied};
ghost use Rattle.gw_table.specs.Stored.{visible, placed, is_vacant};

use gw_ctx::Context;
use gw_term::Termination;
use std::alloc::AllocError;

/// What stands at a prepared key.
#[derive(Drop)]
pub enum Place<T> {
    /// There is no entry.
    Empty,
    /// The entry.
    Here(T),
    /// A part has what stood here.
    Out,
}

impl<T> Place<T> {
    /// The place of an entry, or of none.
    pub fn of(entry: Option<T>) -> Place<T>
        ensures { result ≡ placed entry }
    {
        match entry {
            Some(entry) => Place::Here(entry),
            None => Place::Empty,
        }
    }

    /// Whether an entry stands here.
    pub fn is_here(&self) -> bool
        ensures { result ≡ is_some (visible (Some self.now)) }
    {
        matches!(self, Place::Here(_))
    }

    /// The entry that stands here.
    pub fn into_entry(self) -> Option<T>
        ensures { result ≡ visible (Some self) }
    {
        match self {
            Place::Here(entry) => Some(entry),
            Place::Empty | Place::Out => None,
        }
    }
}

/// The entry that stands in a place, if there is such a place.
pub(crate) fn entry_at<T>(place: Option<&Place<T>>) -> Option<&T>
    ensures { option_copied result ≡ visible (option_copied place.entry) }
{
    match place {
        Some(Place::Here(entry)) => Some(entry),
        _ => None,
    }
}

/// Whether there is a place, and nothing that stands in it or went out of it.
pub(crate) fn is_vacant<T>(place: Option<&Place<T>>) -> bool
    ensures { result ≡ is_vacant (option_copied place.entry) }
{
    matches!(place, Some(Place::Empty))
}

impl Clone for Place<Termination> {
    ghost use Rattle.std.specs.Prelude.{◌≡◌};

    ghost is_clone = { λ a b. b ≡ a };

    fn clone(&self) -> Result<Self, AllocError> {
        match self {
            Place::Empty => Ok(Place::Empty),
            Place::Here(entry) => Ok(Place::Here(entry.clone()?)),
            Place::Out => Ok(Place::Out),
        }
    }
}

impl Clone for Place<Context> {
    ghost use Rattle.std.specs.Prelude.{◌≡◌};

    ghost is_clone = { λ a b. b ≡ a };

    fn clone(&self) -> Result<Self, AllocError> {
        match self {
            Place::Empty => Ok(Place::Empty),
            Place::Here(entry) => Ok(Place::Here(entry.clone()?)),
            Place::Out => Ok(Place::Out),
        }
    }
}
