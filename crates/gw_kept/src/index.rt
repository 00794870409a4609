//! Which requests of a burst are repeats: an index of the burst's keys, made once for a burst.

ghost use Rattle.std.specs.Prelude.{◌≡◌, ◌-◌, ◌<◌, List, Some, None, IfOk, OnOk, if◌then◌else◌, is_some, length, true, false};
ghost use Rattle.std.specs.BTreeMap.{get};
ghost use Rattle.gw_kept.specs.declared.entry.RequestKey.{RequestKey as Key};
ghost use Rattle.gw_kept.specs.declared.point.Point.{Point as Item};
ghost use Rattle.gw_kept.specs.Classes.{Standing, standing_of, keys_of, most_new, source_at, has_pair, last_place, kept_place, class_at, class_of, behind, behind_request, with_key, without};
ghost use Rattle.gw_kept.specs.Index.{is_requested, kept_at, seen, IsRequested, IsIndex};
ghost use Rattle.gw_kept.specs.Order.{key_cmp};

use crate::class::{Class, Source};
use crate::entry::RequestKey;
use crate::kept::Kept;
use crate::point::{BorrowedKey, Point, Removal};
use crate::row::Row;
use std::alloc::{AllocError, Global};
use std::collections::BTreeMap;

/// How many new requests a burst may have.
pub(crate) const MOST_NEW: usize = 1024;

/// The keys of the requests of a burst, each with the place of its last pair, if it has one: counted from the oldest
/// pair that was kept before the burst.
#[derive(Drop)]
pub struct Index {
    pub(crate) places: BTreeMap<RequestKey, Option<usize>>,
    /// How many pairs are kept at most.
    pub(crate) most: usize,
    /// How many there were before the burst.
    pub(crate) before: usize,
    /// How many there were and have come since.
    pub(crate) total: usize,
    /// What is kept at this point, without the replies, where acknowledgements have a say.
    pub(crate) left: Option<Row>,
}

/// The keys of the requests, each with the place of its pair, if it has one.
fn requested_places(
    alloc: Global,
    kept: &Kept,
    points: &[Point<'_>],
) -> Result<BTreeMap<RequestKey, Option<usize>>, AllocError>
    ensures { IfOk result (λ places. (q : Key) → get key_cmp places q ≡ (if is_requested q points.now then Some (last_place q (keys_of kept.now)) else None)) }
{
    let mut places = BTreeMap::new(alloc);
    for point in points {
        if let Point::Request(key) = point {
            places.insert(key.get(), kept.place(key))?;
        }
    }
    Ok(places)
}

/// Where the pair of a place is, where so many were kept before the burst.
pub(crate) fn source(before: usize, place: usize) -> Source
    ensures { result ≡ source_at before place }
{
    if place < before {
        Source::Kept(place)
    } else {
        Source::Place(place - before)
    }
}

/// The place of a key's last pair, if that is kept: where acknowledgements have no say, if it is none before the
/// oldest.
pub(crate) fn kept_place(
    place: Option<usize>,
    key: &BorrowedKey<'_>,
    oldest: usize,
    left: &Option<Row>,
) -> Option<usize>
    ensures { result ≡ kept_at place key.now oldest left.now }
{
    let kept = match (place, left) {
        (Some(_), Some(row)) => row.has(key),
        (Some(place), None) => oldest <= place,
        (None, _) => false,
    };
    if kept { place } else { None }
}

impl Index {
    /// The index of a burst's requests, before its first item: each key is looked up among the kept pairs. The caller
    /// says whether acknowledgements have a say.
    ///
    /// # Errors
    ///
    /// `AllocError` where memory was refused.
    pub fn of(
        alloc: Global,
        kept: &Kept,
        points: &[Point<'_>],
        acknowledged: bool,
    ) -> Result<Index, AllocError>
        ensures index { IfOk result (λ index. IsIndex points.now index (standing_of kept.now)) }
        ensures most { IfOk result (λ index. index.most ≡ kept.now.most) }
        ensures before { IfOk result (λ index. index.before ≡ length kept.now.pairs) }
        ensures left { IfOk result (λ index. is_some index.left ≡ acknowledged) }
    {
        let left = if acknowledged {
            Some(kept.keys(alloc)?)
        } else {
            None
        };
        Ok(Index {
            places: requested_places(alloc, kept, points)?,
            most: kept.most(),
            before: kept.len(),
            total: kept.len(),
            left,
        })
    }

    /// The class of a request of the burst, and its pair in the index if it is new: one look-up in the index.
    fn request_class(&mut self, alloc: Global, key: &BorrowedKey<'_>) -> Class
        ensures exact { (requested : List Item) (s : Standing) → IsIndex requested self.old s → is_requested key.now requested ≡ true → (result ≡ class_of self.old.before s.pairs (kept_place key.now s)) × IsIndex requested self.new (behind_request self.old.most result key.now s) }
        ensures most { self.new.most ≡ self.old.most }
        ensures before { self.new.before ≡ self.old.before }
        ensures left { is_some self.new.left ≡ is_some self.old.left }
    {
        // The key of each request of the burst has a place here.
        let Some(last) = self.places.get_mut(&key.get()) else {
            return Class::Nothing;
        };
        let oldest = self.total.saturating_sub(self.most);
        if let Some(place) = kept_place(*last, key, oldest, &self.left) {
            return Class::Repeat(source(self.before, place));
        }
        if self.total.saturating_sub(self.before) >= MOST_NEW {
            return Class::Over;
        }
        *last = Some(self.total);
        self.total = self.total.saturating_add(1);
        if let Some(row) = &mut self.left {
            row.push_key(alloc, key);
        }
        Class::New
    }

    /// Removes what an acknowledgement names, where acknowledgements have a say.
    fn acknowledge(&mut self, removal: &Removal<'_>)
        ensures exact { (requested : List Item) (s : Standing) → IsIndex requested self.old s → is_some self.old.left ≡ true → IsIndex requested self.new (without removal.now s) }
        ensures none { (requested : List Item) (s : Standing) → IsIndex requested self.old s → is_some self.old.left ≡ false → IsIndex requested self.new s }
        ensures most { self.new.most ≡ self.old.most }
        ensures before { self.new.before ≡ self.old.before }
        ensures left { is_some self.new.left ≡ is_some self.old.left }
    {
        if let Some(row) = &mut self.left {
            row.forget(removal.mid.mid(), removal.ranges.as_slice());
        }
    }

    /// The class of the next item, which changes what is kept behind it.
    pub fn class(&mut self, alloc: Global, point: &Point<'_>) -> Class
        ensures exact { (requested : List Item) (s : Standing) → IsIndex requested self.old s → IsRequested point.now requested → (result ≡ class_at self.old.before (seen (is_some self.old.left) point.now) s) × IsIndex requested self.new (behind self.old.most self.old.before (seen (is_some self.old.left) point.now) s) }
        ensures most { self.new.most ≡ self.old.most }
        ensures before { self.new.before ≡ self.old.before }
        ensures left { is_some self.new.left ≡ is_some self.old.left }
    {
        match point {
            Point::Request(key) => self.request_class(alloc, key),
            Point::Ack(removal) => {
                self.acknowledge(removal);
                Class::Nothing
            }
            Point::Nothing => Class::Nothing,
        }
    }
}
