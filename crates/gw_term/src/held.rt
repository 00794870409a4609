//! What is kept of a property and of a tail, with the texts of each together.

ghost use Rattle.std.specs.Prelude.{◌≡◌, ◌++◌, if◌then◌else◌, true, IfOk, None, Some};
ghost use Rattle.gw_term.specs.HeldTexts.{text_of};
ghost use Rattle.gw_term.specs.Lookups.{is_of_name};

use crate::names::{is_same_name, name_tag};
use crate::text::Text;
use gw_base::{Items, Span};
use gw_desc::{Property, Sign, Tail};
use gw_reply::{KeptProperty, KeptTail};
use std::alloc::{AllocError, Global};
use std::marker::Model;

/// A property that is kept: its name and its value stand together, the name first. Contracts see the property.
#[derive(Drop)]
pub struct HeldProperty {
    sign: Sign,
    /// The tag of its name.
    tag: u64,
    texts: Text,
    /// How long the name is: where the value begins.
    split: usize,
}

impl Model for HeldProperty {
    ghost use Rattle.std.specs.Prelude.{◌≡◌, ◌≤◌, ℕ, List, length, take};
    ghost use Rattle.gw_desc.specs.declared.descriptor.Property.{Property as PropertyOf};
    ghost use Rattle.gw_term.specs.HeldTexts.{split_property, text_of};
    ghost use Rattle.gw_term.specs.NameTags.{name_tag};

    ghost Value = { PropertyOf (List ℕ) };

    ghost view = { λ p. split_property p.sign p.split (text_of p.texts) };

    ghost invariant = { λ p. (p.split ≤ length (text_of p.texts)) × (p.tag ≡ name_tag (take p.split (text_of p.texts))) };
}

fn is_same_sign(a: Sign, b: Sign) -> bool
    ensures { result ≡ true → a ≡ b }
{
    matches!(
        (a, b),
        (Sign::Equal, Sign::Equal)
            | (Sign::NotEqual, Sign::NotEqual)
            | (Sign::Less, Sign::Less)
            | (Sign::Greater, Sign::Greater)
    )
}

impl HeldProperty {
    /// The property, with copies of its texts.
    pub(crate) fn of(
        alloc: Global,
        property: &Property<Span<'_>>,
    ) -> Result<HeldProperty, AllocError>
        ensures { IfOk result (λ held. held ≡ property.now) }
    {
        let name = property.name.as_bytes();
        Ok(HeldProperty {
            sign: property.sign,
            tag: name_tag(name),
            texts: Text::of(alloc, name, property.value.as_bytes())?,
            split: name.len(),
        })
    }

    /// Its name.
    fn name(&self) -> &[u8]
        ensures { result.now ≡ self.now.name }
    {
        &self.texts.as_slice()[..self.split]
    }

    /// Whether it is of the name of the other, in any case. Other names mostly have another tag.
    #[inline]
    #[tactic(auto, using(crate::proofs::NameTags::other_names))]
    pub(crate) fn has_same_name(&self, other: &HeldProperty) -> bool
        ensures { result ≡ is_of_name other.now.name self.now }
    {
        if self.tag != other.tag {
            return false;
        }
        is_same_name(self.name(), other.name())
    }

    /// Whether it is the other property.
    #[inline]
    pub(crate) fn is_same(&self, other: &HeldProperty) -> bool
        ensures { result ≡ true → self.now ≡ other.now }
    {
        self.tag == other.tag
            && is_same_sign(self.sign, other.sign)
            && self.split == other.split
            && self.texts.as_slice() == other.texts.as_slice()
    }

    /// A copy of the property.
    pub(crate) fn copied(&self, alloc: Global) -> Result<HeldProperty, AllocError>
        ensures { IfOk result (λ copy. copy ≡ self.now) }
    {
        Ok(HeldProperty {
            sign: self.sign,
            tag: self.tag,
            texts: self.texts.copied(alloc)?,
            split: self.split,
        })
    }

    /// The property as a reply has it, with copies of its texts.
    pub(crate) fn to_reply(&self, alloc: Global) -> Result<KeptProperty, AllocError>
        ensures { IfOk result (λ property. property ≡ self.now) }
    {
        let (name, value) = self.texts.as_slice().split_at(self.split);
        let name = Items::from_slice(alloc, name)?;
        let value = Items::from_slice(alloc, value)?;
        Ok(Property {
            name,
            sign: self.sign,
            value,
        })
    }
}

/// A tail that is kept: its word and its group stand together, the word first. Contracts see the tail.
#[derive(Drop)]
pub struct HeldTail {
    equals: bool,
    has_word: bool,
    has_group: bool,
    texts: Text,
    /// How long the word is: where the group begins.
    split: usize,
}

impl Model for HeldTail {
    ghost use Rattle.std.specs.Prelude.{◌≤◌, ℕ, List, length};
    ghost use Rattle.gw_desc.specs.declared.descriptor.Tail.{Tail as TailOf};
    ghost use Rattle.gw_term.specs.HeldTexts.{split_tail, text_of};

    ghost Value = { TailOf (List ℕ) };

    ghost view = { λ t. split_tail t.equals t.has_word t.has_group t.split (text_of t.texts) };

    ghost invariant = { λ t. t.split ≤ length (text_of t.texts) };
}

/// The text, or none.
fn text_of<'a>(text: &Option<Span<'a>>) -> &'a [u8]
    ensures { result.now ≡ text_of text.now }
{
    match text {
        Some(text) => text.as_bytes(),
        None => &[],
    }
}

/// A text of its own, if it is there.
fn kept_if(alloc: Global, is_there: bool, text: &[u8]) -> Result<Option<Items<u8>>, AllocError>
    ensures { IfOk result (λ kept. kept ≡ (if is_there then Some text.now else None)) }
{
    if is_there {
        Ok(Some(Items::from_slice(alloc, text)?))
    } else {
        Ok(None)
    }
}

impl HeldTail {
    /// A tail with no word and no group. It takes no memory.
    pub(crate) fn nothing() -> HeldTail {
        HeldTail {
            equals: false,
            has_word: false,
            has_group: false,
            texts: Text::none(),
            split: 0,
        }
    }

    /// The tail, with copies of its texts, or with those of the other, where they are long and the same.
    pub(crate) fn of(
        alloc: Global,
        tail: &Tail<Span<'_>>,
        made: Option<&HeldTail>,
    ) -> Result<HeldTail, AllocError>
        ensures { IfOk result (λ held. held ≡ tail.now) }
    {
        let word = text_of(&tail.word);
        let made = made.map(|made| &made.texts);
        let texts = Text::of(alloc, word, text_of(&tail.group))?.shared_with(alloc, made)?;
        Ok(HeldTail {
            equals: tail.equals,
            has_word: tail.word.is_some(),
            has_group: tail.group.is_some(),
            texts,
            split: word.len(),
        })
    }

    /// Whether it is the other tail.
    pub(crate) fn is_same(&self, other: &HeldTail) -> bool
        ensures { result ≡ true → self.now ≡ other.now }
    {
        self.equals == other.equals
            && self.has_word == other.has_word
            && self.has_group == other.has_group
            && self.split == other.split
            && self.texts.as_slice() == other.texts.as_slice()
    }

    /// A copy of the tail.
    pub(crate) fn copied(&self, alloc: Global) -> Result<HeldTail, AllocError>
        ensures { IfOk result (λ copy. copy ≡ self.now) }
    {
        Ok(HeldTail {
            equals: self.equals,
            has_word: self.has_word,
            has_group: self.has_group,
            texts: self.texts.copied(alloc)?,
            split: self.split,
        })
    }

    /// The tail as a reply has it, with copies of its texts.
    pub(crate) fn to_reply(&self, alloc: Global) -> Result<KeptTail, AllocError>
        ensures { IfOk result (λ tail. tail ≡ self.now) }
    {
        let (word, group) = self.texts.as_slice().split_at(self.split);
        Ok(Tail {
            equals: self.equals,
            word: kept_if(alloc, self.has_word, word)?,
            group: kept_if(alloc, self.has_group, group)?,
        })
    }
}
