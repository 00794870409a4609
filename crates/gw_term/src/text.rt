//! A text that is kept: with its record if it is short, else in a block of its own or in one that copies share.

ghost use Rattle.std.specs.Prelude.{◌≡◌, ◌++◌, IfOk, IfSome, is_none, None, Some, true};
ghost use Rattle.gw_term.specs.HeldTexts.{text_of};

use gw_base::Items;
use std::alloc::{AllocError, Global};
use std::marker::Model;
use std::sync::ArcSlice;

/// The length, in bytes, from which on copies of a text share its block: such a copy costs more than a second block.
pub(crate) const LONG: usize = 512;

/// How many bytes lie without a block at most: they take no more room than a handle of a block does.
pub(crate) const MOST_SHORT: usize = 22;

/// At most 22 bytes. Contracts see the list of them.
#[derive(Drop)]
pub struct Short {
    length: u8,
    cells: [u8; MOST_SHORT],
}

impl Model for Short {
    ghost use Rattle.std.specs.Prelude.{◌≤◌, ℕ, List, take};

    ghost Value = { List ℕ };

    ghost view = { λ s. take s.length s.cells };

    ghost invariant = { λ s. s.length ≤ 22 };
}

impl Short {
    /// The one behind the other, if there is room.
    fn of(first: &[u8], second: &[u8]) -> Option<Short>
        ensures { IfSome result (λ short. short ≡ first.now ++ second.now) }
    {
        let length = first.len() + second.len();
        if length > MOST_SHORT {
            return None;
        }
        let mut cells = [0; MOST_SHORT];
        cells[..first.len()].copy_from_slice(first);
        cells[first.len()..length].copy_from_slice(second);
        Some(Short {
            length: length as u8,
            cells,
        })
    }

    /// A copy.
    #[inline(always)]
    fn copied(&self) -> Short
        ensures { result ≡ self.now }
    {
        Short {
            length: self.length,
            cells: self.cells,
        }
    }

    /// Its bytes.
    #[inline]
    fn as_slice(&self) -> &[u8]
        ensures { result.now ≡ self.now }
    {
        &self.cells[..self.length as usize]
    }
}

/// Where the bytes of a text lie.
pub enum Form {
    /// There is no text.
    Missing,
    /// With the record, since they are few.
    Here(Short),
    /// In a block that no other text has.
    Own(Vec<u8>),
    /// In a block that its copies share.
    Shared(ArcSlice<u8>),
}

/// The block has an owner less. Not inlined, since most texts have a block of their own.
#[inline(never)]
fn release(block: ArcSlice<u8>) {
    drop(block);
}

// By hand, so that where a text is dropped no more stands in place than what most of them need.
impl Drop for Form {
    #[inline(always)]
    fn drop(self) {
        match self {
            Form::Missing => {}
            Form::Here(_) => {}
            Form::Own(_) => {}
            Form::Shared(block) => release(block),
        }
    }
}

/// A text that is kept, or none. A long one is shared among the records that have it. Contracts see the text, or
/// none.
#[derive(Drop)]
pub struct Text {
    form: Form,
}

impl Model for Text {
    ghost use Rattle.std.specs.Prelude.{ℕ, List, Option as OptionOf};
    ghost use Rattle.gw_term.specs.HeldTexts.{text_in};

    ghost Value = { OptionOf (List ℕ) };

    ghost view = { λ t. text_in t.form };
}

impl Text {
    /// No text.
    pub(crate) fn none() -> Text
        ensures { result ≡ None }
    {
        Text {
            form: Form::Missing,
        }
    }

    /// Copies of two texts, the one behind the other: where they are kept if they are short, else in a block with no
    /// room for more, which copies share if they are long.
    pub(crate) fn of(alloc: Global, first: &[u8], second: &[u8]) -> Result<Text, AllocError>
        ensures { IfOk result (λ text. text ≡ Some (first.now ++ second.now)) }
    {
        if let Some(short) = Short::of(first, second) {
            return Ok(Text {
                form: Form::Here(short),
            });
        }
        let mut texts = Vec::with_capacity(alloc, first.len() + second.len())?;
        texts.extend_from_slice(first)?;
        texts.extend_from_slice(second)?;
        Text::from_vec(texts)
    }

    /// The text that stands in a block, which its copies share if it is long.
    pub(crate) fn from_vec(block: Vec<u8>) -> Result<Text, AllocError>
        ensures { IfOk result (λ text. text ≡ Some block.items) }
    {
        let form = if block.len() < LONG {
            Form::Own(block)
        } else {
            Form::Shared(ArcSlice::from_vec(block)?)
        };
        Ok(Text { form })
    }

    /// Its bytes; none where there is no text.
    #[inline]
    pub(crate) fn as_slice(&self) -> &[u8]
        ensures { result.now ≡ text_of self.now }
    {
        match &self.form {
            Form::Missing => &[],
            Form::Here(short) => short.as_slice(),
            Form::Own(block) => block.as_slice(),
            Form::Shared(block) => block.as_slice(),
        }
    }

    /// A copy.
    #[inline(always)]
    pub(crate) fn copied(&self, alloc: Global) -> Result<Text, AllocError>
        ensures { IfOk result (λ copy. copy ≡ self.now) }
    {
        let form = match &self.form {
            Form::Missing => Form::Missing,
            Form::Here(short) => Form::Here(short.copied()),
            Form::Own(block) => Form::Own(Vec::from_slice(alloc, block.as_slice())?),
            Form::Shared(block) => Form::Shared(block.clone()?),
        };
        Ok(Text { form })
    }

    /// Whether there is no text.
    fn is_none(&self) -> bool
        ensures { result ≡ is_none self.now }
    {
        matches!(self.form, Form::Missing)
    }

    /// Whether it is the other text, or there is neither.
    pub(crate) fn is_same(&self, other: &Text) -> bool
        ensures { result ≡ true → self.now ≡ other.now }
    {
        self.is_none() == other.is_none() && self.as_slice() == other.as_slice()
    }

    /// The text, which shares its block with this one, if it is long and the same.
    pub(crate) fn shared_with(self, alloc: Global, made: Option<&Text>) -> Result<Text, AllocError>
        ensures { IfOk result (λ shared. shared ≡ self) }
    {
        match made {
            Some(made) if self.as_slice().len() >= LONG && self.is_same(made) => made.copied(alloc),
            _ => Ok(self),
        }
    }

    /// This text, kept: where it is long and that of the other, in its block.
    pub(crate) fn of_or(alloc: Global, text: &[u8], made: Option<&Text>) -> Result<Text, AllocError>
        ensures { IfOk result (λ kept. kept ≡ Some text.now) }
    {
        match made {
            Some(made) if text.len() >= LONG && made.as_slice() == text => made.copied(alloc),
            _ => Text::of(alloc, text, &[]),
        }
    }

    /// The text as a reply has it, in a block of its own.
    pub(crate) fn to_reply(&self, alloc: Global) -> Result<Option<Items<u8>>, AllocError>
        ensures { IfOk result (λ copy. copy ≡ self.now) }
    {
        if self.is_none() {
            return Ok(None);
        }
        Ok(Some(Items::from_slice(alloc, self.as_slice())?))
    }
}
