//! A growing list that is mostly short, which contracts see as a list.

ghost use Rattle.std.specs.Prelude.{◌≡◌, [], ◌∷◌, ◌++◌, OnOk, OnErr};

use smallvec::SmallVec;
use std::alloc::{AllocError, Global};
use std::marker::Model;

/// A growing list of which the first `N` items lie in the value itself: a list of no more takes no memory. Made for
/// small items, since the value has room for that many.
#[derive(Drop)]
pub struct Short<T, const N: usize> {
    items: SmallVec<T, N>,
}

impl<T, const N: usize> Model for Short<T, N> {
    ghost use Rattle.std.specs.Prelude.{List};

    ghost Value = { List T };

    ghost view = { λ a. a.items.items };
}

impl<T: Default + Drop, const N: usize> Short<T, N> {
    /// A list of nothing.
    pub fn new(alloc: Global) -> Self
        ensures { result ≡ [] }
    {
        Short {
            items: SmallVec::new(alloc),
        }
    }

    /// The item goes last.
    ///
    /// # Errors
    ///
    /// `AllocError` where an allocation was refused; the list is then as it was.
    pub fn push(&mut self, item: T) -> Result<(), AllocError>
        ensures ok { OnOk result (self.new ≡ self.old ++ item ∷ []) }
        ensures err { OnErr result (self.new ≡ self.old) }
    {
        self.items.push(item)?;
        Ok(())
    }
}

// Looking at a list needs nothing of its items: who only reads does not say how they are dropped.
impl<T, const N: usize> Short<T, N> {
    /// The items in order.
    pub fn as_slice(&self) -> &[T]
        ensures { result.now ≡ self.now }
    {
        self.items.as_slice()
    }
}
