//! A value in a block of its own, which contracts see as the value.

ghost use Rattle.std.specs.Prelude.{◌≡◌, IfOk};
ghost use Rattle.std.specs.Borrow.{sem};
ghost use Rattle.gw_base.specs.Lending.{LendsAll};

use std::alloc::{AllocError, Global};
use std::marker::Model;

/// A value in a block of its own: a handle of eight bytes, which is moved in place of the value.
#[derive(Drop)]
pub struct Held<T> {
    block: Box<T>,
}

impl<T> Model for Held<T> {
    ghost use Rattle.std.specs.Prelude.{◌≡◌};

    ghost Value = { T };

    ghost view = { λ a. a.block.value };
}

impl<T: Drop> Held<T> {
    /// The value goes into a block.
    ///
    /// # Errors
    ///
    /// `AllocError` where the block was refused; the value is then dropped.
    pub fn new(alloc: Global, value: T) -> Result<Held<T>, AllocError>
        ensures { IfOk result (λ held. held ≡ value) }
    {
        Ok(Held {
            block: Box::new(alloc, value)?,
        })
    }
}

impl<T> Held<T> {
    /// The value, to look at.
    pub fn get(&self) -> &T
        ensures { result.now ≡ self.now }
    {
        self.block.as_ref()
    }

    /// The value, to change in its place.
    pub fn get_mut(&mut self) -> &mut T
        ensures* writes_back { sem 𝓛 (LendsAll T.row self.entry result) }
        ensures value { result.now ≡ self.old }
    {
        self.block.as_mut()
    }

    /// The value, out of its block, which is given back.
    pub fn into_inner(self) -> T
        ensures { result ≡ self }
    {
        Box::into_inner(self.block)
    }
}

// So that what holds a handle is copied by its own `clone`, each value in a block of its own.
impl<T: Clone + Drop> Clone for Held<T> {
    ghost is_clone = { T.is_clone };

    fn clone(&self) -> Result<Held<T>, AllocError> {
        Ok(Held {
            block: self.block.clone()?,
        })
    }
}
