//! Rows with an index of their keys: a key is searched once, and its row is then found by its number.

ghost use Rattle.std.specs.Prelude.{◌≡◌, [], length, None, Some, is_some, IfOk, OnOk, OnErr, option_copied};
ghost use Rattle.std.specs.Borrow.{sem};
ghost use Rattle.std.specs.BTreeMap.{is_at};
ghost use Rattle.std.specs.Iterator.{at_most};
ghost use Rattle.std.specs.Map.{lookup};
ghost use Rattle.std.specs.Map.Iter.{TakesFirst, deref_pair};
ghost use Rattle.std.specs.Option.{option_copied_mut};
ghost use Rattle.gw_table.specs.Rows.{found, row_at, place_of_row, rowed, IsRising, IsTied, Puts};
ghost use Rattle.gw_table.specs.Stored.{visible, if_visible};

use crate::row::Row;
use gw_base::NoMemory;
use slab::Slab;
use std::alloc::Global;
use std::collections::{BTreeMap, btree_map};
use std::marker::Model;

/// A row with its key.
#[derive(Drop)]
pub(crate) struct KeyedRow<K, T> {
    key: K,
    row: Row<T>,
}

/// Where a key was found. That is a guide alone: what stands there is looked at before it is believed, so that an old
/// one costs a search and does no harm.
#[derive(Clone, Copy)]
pub(crate) struct Guide(u32);

impl Guide {
    /// Of a key that was not looked for: it is where the key is that was found last, or elsewhere.
    pub(crate) fn none() -> Guide {
        Guide(u32::MAX)
    }

    /// This one, or the other where it is none.
    fn or(self, other: Guide) -> Guide {
        if self.0 == u32::MAX { other } else { self }
    }

    /// Of the row with this number. Of one that does not fit it is as of none.
    pub(crate) fn at(number: usize) -> Guide {
        Guide(u32::try_from(number).unwrap_or(u32::MAX))
    }
}

/// The guide of the key with this index in a list. A missing one is as of none.
pub(crate) fn guide_at(guides: &[Guide], i: usize) -> Guide {
    match guides.get(i) {
        Some(guide) => *guide,
        None => Guide::none(),
    }
}

/// Sets the guide of the key with this index, if the list has one.
pub(crate) fn set_guide(guides: &mut [Guide], i: usize, guide: Guide) {
    if let Some(old) = guides.get_mut(i) {
        *old = guide;
    }
}

/// Rows by key, in the order of the keys: the index has the number of the row of each key. The place of a row that was
/// dropped is used again. The key that was last sought, or found to be changed, is found again without a search.
#[derive(Drop)]
pub(crate) struct Rows<K: Ord, T> {
    index: BTreeMap<K, usize>,
    rows: Slab<KeyedRow<K, T>>,
    last: Guide,
}

impl<K: Ord, T> Model for Rows<K, T> {
    ghost use Rattle.gw_table.specs.Rows.{Rowed, rowed, IsTied};
    ghost use Rattle.gw_table.specs.declared.place.Place.{Place};

    ghost Value = { Rowed K (Place T) };

    ghost view = { λ a. record { entries = rowed a.index.entries a.rows.slots } };

    ghost invariant = { λ a. IsTied K.cmp a.index.entries a.rows.slots };
}

impl<K, T> KeyedRow<K, T> {
    ghost use Rattle.gw_table.specs.RowLending.{LendsRow};

    fn row_mut(&mut self) -> &mut Row<T>
        ensures* lends { sem 𝓛 (LendsRow K.row T.row self.entry result) }
        ensures value { result.now ≡ self.old.row }
    {
        &mut self.row
    }
}

/// The number of the row of a key, if it has one: the guide where it is right, and else what the index has.
fn number_of<K: Ord, T>(
    index: &BTreeMap<K, usize>,
    rows: &Slab<KeyedRow<K, T>>,
    last: Guide,
    guide: Guide,
    key: &K,
) -> Option<usize>
    requires { IsTied K.cmp index.now.entries rows.now.slots }
    ensures { result ≡ lookup (is_at (K.cmp key.now)) index.now.entries }
{
    let guide = guide.or(last);
    let number = guide.0 as usize;
    if let Some(keyed) = rows.get(number) {
        if keyed.key == *key {
            return Some(number);
        }
    }
    match index.get(key) {
        Some(number) => Some(*number),
        None => None,
    }
}

impl<K: Ord, T> Rows<K, T> {
    ghost use Rattle.gw_table.specs.RowLending.{LendsFound};

    /// No rows, which take no memory.
    pub(crate) fn new(alloc: Global) -> Self
        ensures { result.entries ≡ [] }
    {
        Rows {
            index: BTreeMap::new(alloc),
            rows: Slab::new(alloc),
            last: Guide::none(),
        }
    }

    /// No rows, and room for so many.
    pub(crate) fn with_room(alloc: Global, count: usize) -> Result<Self, NoMemory>
        ensures { IfOk result (λ rows. rows.entries ≡ []) }
    {
        let rows = Slab::with_capacity(alloc, count)?;
        Ok(Rows {
            index: BTreeMap::new(alloc),
            rows,
            last: Guide::none(),
        })
    }

    /// How many keys have a row.
    pub(crate) fn len(&self) -> usize
        ensures ordered { IsRising K.cmp self.now }
    {
        self.index.len()
    }

    /// Where the row of a key is, if it has one.
    pub(crate) fn find(&self, key: &K) -> Option<Guide>
        ensures { is_some result ≡ is_some (found K.cmp self.now key.now) }
    {
        match self.index.get(key) {
            Some(number) => Some(Guide::at(*number)),
            None => None,
        }
    }

    /// Looks for a key, so that it is not searched for again until another was sought or found to be changed. The guide
    /// is looked at first, and where it is right there is no search.
    pub(crate) fn seek(&mut self, guide: Guide, key: &K)
        ensures { self.new ≡ self.old }
    {
        if let Some(number) = number_of(&self.index, &self.rows, self.last, guide, key) {
            self.last = Guide::at(number);
        }
    }

    /// Where the next row that is made will be.
    pub(crate) fn next_guide(&self) -> Guide {
        Guide::at(self.rows.vacant_key())
    }

    /// What stands at a key. The guide is looked at first, or where it is none the key that was sought or changed last,
    /// and where that is right the key is not searched for.
    pub(crate) fn get_at(&self, guide: Guide, key: &K) -> Option<&Row<T>>
        ensures { option_copied result ≡ found K.cmp self.now key.now }
    {
        match number_of(&self.index, &self.rows, self.last, guide, key) {
            Some(number) => Some(&self.rows[number].row),
            None => None,
        }
    }

    /// What stands at a key, to be changed. It is not searched for where it was sought or found so last.
    pub(crate) fn get_mut(&mut self, key: &K) -> Option<&mut Row<T>>
        ensures* writes_back { sem 𝓛 (LendsFound K.row T.row K.Ord self.entry key.now result) }
        ensures value { option_copied_mut result ≡ found K.cmp self.old key.now }
    {
        self.get_mut_at(Guide::none(), key)
    }

    /// What stands at a key, to be changed. The guide is looked at first, as by `get_at`.
    pub(crate) fn get_mut_at(&mut self, guide: Guide, key: &K) -> Option<&mut Row<T>>
        ensures* writes_back { sem 𝓛 (LendsFound K.row T.row K.Ord self.entry key.now result) }
        ensures value { option_copied_mut result ≡ found K.cmp self.old key.now }
    {
        match number_of(&self.index, &self.rows, self.last, guide, key) {
            Some(number) => {
                self.last = Guide::at(number);
                Some(self.rows[number].row_mut())
            }
            None => None,
        }
    }
}

/// Whether an entry stands in the row with a number.
fn is_here_at<K, T>(rows: &Slab<KeyedRow<K, T>>, number: usize) -> bool
    ensures { result ≡ is_some (visible (place_of_row (row_at rows.now.slots number))) }
{
    match rows.get(number) {
        Some(keyed) => keyed.row.is_here(),
        None => false,
    }
}

impl<K: Ord + Copy + Drop, T: Drop> Rows<K, T> {
    /// Puts a row at a key, and answers the one that stood there. Out of memory nothing has changed.
    pub(crate) fn insert(&mut self, key: K, row: Row<T>) -> Result<Option<Row<T>>, NoMemory>
        ensures old { IfOk result (λ old. old ≡ found K.cmp self.old key) }
        ensures updates { OnOk result (Puts K.cmp self.old key (Some row) self.new) }
        ensures err { OnErr result (self.new ≡ self.old) }
    {
        self.rows.reserve(1)?;
        let number = self.rows.vacant_key();
        let before = self.index.insert(key, number)?;
        let row = row.numbered(number);
        self.rows.insert_reserved(KeyedRow { key, row });
        self.last = Guide::at(number);
        let Some(before) = before else {
            return Ok(None);
        };
        let KeyedRow { key: _, row } = self.rows.remove(before);
        Ok(Some(row))
    }

    /// Drops the row of a key, if it has one, and answers it.
    pub(crate) fn remove(&mut self, key: &K) -> Option<Row<T>>
        ensures value { result ≡ found K.cmp self.old key.now }
        ensures updates { Puts K.cmp self.old key.now None self.new }
    {
        let Some(number) = self.index.remove(key) else {
            return None;
        };
        let KeyedRow { key: _, row } = self.rows.remove(number);
        Some(row)
    }

    /// Drops the rows in which no entry stands.
    pub(crate) fn sweep(&mut self)
        ensures { (q : K) → found K.cmp self.new q ≡ if_visible (found K.cmp self.old q) }
    {
        let rows = &self.rows;
        self.index.retain(|_, number| is_here_at(rows, *number));
        self.rows.retain(|_, keyed| keyed.row.is_here());
    }

    /// Drops all rows.
    pub(crate) fn clear(&mut self)
        ensures empty { self.new.entries ≡ [] }
    {
        self.index.clear();
        self.rows.clear();
    }
}

/// The keys in their order, each with its row.
#[derive(Drop)]
pub(crate) struct Iter<'a, K, T> {
    index: btree_map::Iter<'a, K, usize>,
    rows: &'a Slab<KeyedRow<K, T>>,
}

impl<'a, K, T> Model for Iter<'a, K, T> {
    ghost use Rattle.std.specs.Prelude.{List};
    ghost use Rattle.gw_table.specs.declared.place.Place.{Place};

    ghost Value = { List (K × Place T) };

    ghost use Rattle.gw_table.specs.Rows.{rowed, AreThere};

    ghost view = { λ a. rowed a.index a.rows.now.slots };

    ghost invariant = { λ a. AreThere a.rows.now.slots a.index };
}

/// The keys of an index in their order, each with its row.
fn iter_of<'a, K: Ord, T>(
    index: &'a BTreeMap<K, usize>,
    rows: &'a Slab<KeyedRow<K, T>>,
) -> Iter<'a, K, T>
    requires { IsTied K.cmp index.now.entries rows.now.slots }
    ensures { result ≡ rowed index.now.entries rows.now.slots }
{
    Iter {
        index: index.iter(),
        rows,
    }
}

impl<'a, K, T> Iterator for Iter<'a, K, T> {
    type Item = (&'a K, &'a Row<T>);

    ghost next_gives = { TakesFirst deref_pair };

    ghost remaining = { λ s. at_most (length s) };

    fn next(&mut self) -> Option<(&'a K, &'a Row<T>)> {
        match self.index.next() {
            Some((key, number)) => {
                let rows = self.rows;
                Some((key, &rows[*number].row))
            }
            None => None,
        }
    }
}

impl<'a, K: Ord, T> IntoIterator for &'a Rows<K, T> {
    type Item = (&'a K, &'a Row<T>);

    type IntoIter = Iter<'a, K, T>;

    ghost into_iter_gives = { λ m r. (r ≡ m.now.entries) × IsRising K.cmp m.now };

    fn into_iter(self) -> Iter<'a, K, T> {
        iter_of(&self.index, &self.rows)
    }
}
