//! The kept pairs in the order of their keys: a key's pair is found without looking at the others.

ghost use Rattle.std.specs.Prelude.{◌≡◌, ◌≤◌, ◌<◌, ◌∷◌, ◌++◌, [], Some, None, Err, IfOk, true, drop, length, map, slice_index_or, slice_set};
ghost use Rattle.std.specs.VecDeque.{deque_capacity, deque_len};
ghost use Rattle.std.specs.List.Sorted.{IsSearchInRange};
ghost use Rattle.gw_kept.specs.Rows.{keys_in, key_in, most_places, present, IsFound};
ghost use Rattle.gw_kept.specs.Order.{key_cmp, place_of, IsOrder, IsStand};
ghost use Rattle.gw_kept.specs.Pairs.{key_by, key_of};

use crate::entry::Entry;
use crate::point::BorrowedKey;
use crate::ring::{Ring, pair_at, places_left};
use gw_base::Mid;
use std::alloc::{AllocError, Global};
use std::cmp::Ordering;
use std::collections::VecDeque;

/// The numbers of the kept pairs, in the order of their keys: in a queue, so that what goes in or out near either end
/// moves few. The places of the ring are numbered as they come, gaps among them, and behind 65,535 comes 0: so what
/// leaves the front changes no other number. Where gaps are closed, all are numbered anew.
#[derive(Drop)]
pub struct Order {
    pub(crate) numbers: VecDeque<u16>,
    /// The number of the foremost place.
    pub(crate) first: u16,
}

impl Order {
    /// The order of no pairs, with room for so many.
    ///
    /// # Errors
    ///
    /// `AllocError` where its memory was refused.
    pub fn new(alloc: Global, most: usize) -> Result<Order, AllocError>
        ensures order { IfOk result (λ order. IsOrder [] order.first order.numbers.items) }
        ensures room { IfOk result (λ order. most ≤ deque_capacity order.numbers) }
    {
        Ok(Order {
            numbers: VecDeque::with_capacity(alloc, most)?,
            first: 0,
        })
    }

    /// The same order, with room for so many.
    ///
    /// # Errors
    ///
    /// `AllocError` where its memory was refused.
    pub fn copy(&self, alloc: Global, most: usize) -> Result<Order, AllocError>
        ensures first { IfOk result (λ order. order.first ≡ self.now.first) }
        ensures numbers { IfOk result (λ order. order.numbers.items ≡ self.now.numbers.items) }
        ensures room { IfOk result (λ order. most ≤ deque_capacity order.numbers) }
    {
        let mut numbers = VecDeque::with_capacity(alloc, most)?;
        for at in 0..self.numbers.len() {
            numbers.push_back(self.numbers[at])?;
        }
        Ok(Order {
            numbers,
            first: self.first,
        })
    }

    /// The place that has this number.
    pub fn place(&self, number: u16) -> usize
        ensures { result ≡ place_of self.now.first number }
    {
        usize::from(number.wrapping_sub(self.first))
    }

    /// How the key of the pair that has this number stands to another.
    #[inline(always)]
    fn compare(&self, ring: &Ring, number: u16, mid: &Mid, id: u32) -> Ordering
        ensures { result ≡ key_cmp (key_in (keys_in ring.now.items) (place_of self.now.first number) (key_by mid.now id)) (key_by mid.now id) }
    {
        match pair_at(ring, self.place(number)) {
            Some(entry) => entry.compare_key(mid, id),
            None => Ordering::Equal,
        }
    }

    /// Whether a key comes behind all others.
    #[inline(always)]
    fn is_behind(&self, ring: &Ring, mid: &Mid, id: u32) -> bool
        ensures { (order : IsOrder (keys_in ring.now.items) self.now.first self.now.numbers.items) → result ≡ true → IsStand (keys_in ring.now.items) order.places (key_by mid.now id) (Err (deque_len self.now.numbers)) }
    {
        match self.numbers.back() {
            Some(number) => self.compare(ring, *number, mid, id).is_lt(),
            None => true,
        }
    }

    /// Where a key stands in the order, or where it would stand: one step where it comes behind all others, as the
    /// next number of a sender mostly does, and else as many more as the count of pairs has binary digits.
    #[inline(always)]
    pub fn search(&self, ring: &Ring, mid: &Mid, id: u32) -> Result<usize, usize>
        ensures range { IsSearchInRange result (deque_len self.now.numbers) }
        ensures stand { (order : IsOrder (keys_in ring.now.items) self.now.first self.now.numbers.items) → IsStand (keys_in ring.now.items) order.places (key_by mid.now id) result }
    {
        if self.is_behind(ring, mid, id) {
            return Err(self.numbers.len());
        }
        self.numbers
            .binary_search_by(|number| self.compare(ring, *number, mid, id))
    }

    /// The place of a key's pair, gaps counted.
    pub fn find(&self, ring: &Ring, key: &BorrowedKey<'_>) -> Option<usize>
        requires { IsOrder (keys_in ring.now.items) self.now.first self.now.numbers.items }
        ensures { IsFound (keys_in ring.now.items) key.now result }
    {
        match self.search(ring, key.mid(), key.id()) {
            Ok(at) => Some(self.place(self.numbers[at])),
            Err(_) => None,
        }
    }

    /// Inserts the number of a pair that is to go last, and whose key no pair has. It takes no memory: the caller
    /// knows that there is room.
    pub fn insert(&mut self, ring: &Ring, entry: &Entry)
        requires order { IsOrder (keys_in ring.now.items) self.old.first self.old.numbers.items }
        requires new { IsFound (keys_in ring.now.items) (key_of entry.now) None }
        requires few { length ring.now.items < most_places }
        requires room { deque_len self.old.numbers < deque_capacity self.old.numbers }
        ensures order { IsOrder (keys_in ring.now.items ++ Some (key_of entry.now) ∷ []) self.new.first self.new.numbers.items }
        ensures room { deque_capacity self.old.numbers ≤ deque_capacity self.new.numbers }
    {
        let number = self.first.wrapping_add(ring.len() as u16);
        if let Err(at) = self.search(ring, &entry.mid, entry.id.0) {
            let _ = self.numbers.insert(at, number);
        }
    }

    /// Where the key of the pair in the foremost place stands: mostly in front, as its number shows.
    #[inline(always)]
    fn search_oldest(&self, ring: &Ring, oldest: &Entry) -> Result<usize, usize>
        ensures { (order : IsOrder (keys_in ring.now.items) self.now.first self.now.numbers.items) → slice_index_or (keys_in ring.now.items) 0 None ≡ Some (key_of oldest.now) → IsStand (keys_in ring.now.items) order.places (key_of oldest.now) result }
    {
        match self.numbers.front() {
            Some(number) if *number == self.first => Ok(0),
            _ => self.search(ring, &oldest.mid, oldest.id.0),
        }
    }

    /// Removes the number of the pair in the foremost place, if it is no gap.
    fn remove_pair(&mut self, ring: &Ring)
        requires { IsOrder (keys_in ring.now.items) self.old.first self.old.numbers.items }
        ensures order { IsOrder (slice_set (keys_in ring.now.items) 0 None) self.new.first self.new.numbers.items }
        ensures room { deque_capacity self.new.numbers ≡ deque_capacity self.old.numbers }
    {
        if let Some(oldest) = pair_at(ring, 0) {
            if let Ok(at) = self.search_oldest(ring, oldest) {
                self.numbers.remove(at);
            }
        }
    }

    /// Removes the foremost place, which is to leave the ring: a pair or a gap.
    pub fn remove_front(&mut self, ring: &Ring)
        requires { IsOrder (keys_in ring.now.items) self.old.first self.old.numbers.items }
        ensures order { IsOrder (drop 1 (keys_in ring.now.items)) self.new.first self.new.numbers.items }
        ensures room { deque_capacity self.new.numbers ≡ deque_capacity self.old.numbers }
    {
        self.remove_pair(ring);
        self.first = self.first.wrapping_add(1);
    }

    /// Numbers the pairs anew, as they stand when the gaps are closed.
    pub fn number_anew(&mut self, ring: &Ring)
        requires { IsOrder (keys_in ring.now.items) self.old.first self.old.numbers.items }
        ensures order { IsOrder (map (λ k. Some k) (present (keys_in ring.now.items))) self.new.first self.new.numbers.items }
        ensures room { deque_capacity self.new.numbers ≡ deque_capacity self.old.numbers }
    {
        let places = places_left(ring);
        for at in 0..self.numbers.len() {
            let place = self.place(self.numbers[at]);
            self.numbers[at] = places[place];
        }
        self.first = 0;
    }
}
