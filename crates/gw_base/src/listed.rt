//! A list that lies in an arena, which contracts see as a list.

ghost use Rattle.std.specs.Prelude.{◌≡◌, ◌==◌, [], ◌∷◌, length, IfOk};
ghost use Rattle.std.specs.Mem.{FitsInMemory};

use bumpalo::Bump;
use bumpalo::collections::into_bump_slice;
use std::alloc::AllocError;
use std::marker::Model;
use std::slice;

/// A list that grows no more, as a field of values that contracts compare: what was read of a message. It lies in an
/// arena, and goes with it.
#[derive(Drop)]
pub struct Listed<'a, T> {
    slice: &'a [T],
}

impl<'a, T> Model for Listed<'a, T> {
    ghost use Rattle.std.specs.Prelude.{List};

    ghost Value = { List T };

    ghost view = { λ a. a.slice.now };
}

impl<'a, T: Drop> Listed<'a, T> {
    /// A list of one item, which lies in a block of its own size.
    ///
    /// # Errors
    ///
    /// `AllocError` where the block was refused; the item is then dropped.
    #[inline(always)]
    pub fn one(bump: &'a Bump, item: T) -> Result<Listed<'a, T>, AllocError>
        requires { FitsInMemory T.row }
        ensures { IfOk result (λ list. list ≡ item ∷ []) }
    {
        let item = bump.try_alloc(item)?;
        Ok(Listed {
            slice: slice::from_ref(item),
        })
    }

    /// The items of a vector that was gathered in the arena. They stay where they are: nothing is copied, and none is
    /// dropped.
    pub fn kept(items: Vec<T, &'a Bump>) -> Listed<'a, T>
        ensures { result ≡ items.entry.items }
    {
        Listed {
            slice: into_bump_slice(items),
        }
    }
}

// Looking at a list needs nothing of its items: who only reads does not say how they are dropped.
impl<'a, T> Listed<'a, T> {
    /// A list of nothing, which takes no memory.
    pub fn nothing() -> Listed<'a, T>
        ensures { result ≡ [] }
    {
        Listed { slice: &[] }
    }

    /// The items in order, which stay as long as the arena does.
    pub fn as_slice(&self) -> &'a [T]
        ensures { result.now ≡ self.now }
    {
        self.slice
    }

    /// How many items there are.
    pub fn len(&self) -> usize
        ensures { result ≡ length self.now }
    {
        self.slice.len()
    }

    /// Whether there is no item.
    pub fn is_empty(&self) -> bool
        ensures { result ≡ (length self.now == 0) }
    {
        self.slice.is_empty()
    }
}
