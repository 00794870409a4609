//! The kept pairs in a row, oldest first. Until a burst ends there is a gap in the place of each that was removed.

ghost use Rattle.std.specs.Prelude.{◌≡◌, ◌≤◌, ◌<◌, ◌-◌, ◌++◌, ◌∷◌, [], None, if◌then◌else◌, drop, length, nat_lt, slice_get, slice_index_or, IfOk, option_copied, option_map};
ghost use Rattle.circular_buffer.specs.Buffer.{keep_last};
ghost use Rattle.gw_kept.specs.Changes.{changes_of, kept_after, AreNew};
ghost use Rattle.gw_kept.specs.Classes.{keys_of, last_place, has_pair};
ghost use Rattle.gw_kept.specs.Forgotten.{forgotten};
ghost use Rattle.gw_kept.specs.Pairs.{key_of, bytes_for, kept_list, with_pair, dropped_by, AreDistinct, IsBounded};
ghost use Rattle.gw_kept.specs.Rows.{gapped, present, kept_in, keys_in, places_for, bytes_there, IsFound, IsWhole};

use crate::change::Turn;
use crate::entry::Entry;
use crate::order::Order;
use crate::point::BorrowedKey;
use crate::ring::{Ring, close_gaps, pair_at, pop, put_last};
use circular_buffer::HeapCircularBuffer;
use gw_base::Mid;
use gw_msg::AckRange;
use std::alloc::{AllocError, Global};
use std::marker::Model;

/// How many places there are at most beyond those of the pairs: so many pairs are removed in a burst before gaps have
/// to be closed.
const MOST_BEYOND: usize = 1024;

/// The kept pairs, with gaps where pairs were removed.
#[derive(Drop)]
pub struct Row {
    ring: Ring,
    order: Order,
    /// How many pairs are kept at most.
    most: usize,
}

impl Model for Row {
    ghost use Rattle.gw_kept.specs.Pairs.{IsBounded};
    ghost use Rattle.gw_kept.specs.Rows.{Gapped, coded_gapped, gapped, kept_in, keys_in, places_for};
    ghost use Rattle.gw_kept.specs.Order.{IsOrder};
    ghost use Rattle.std.specs.Prelude.{◌≡◌, ◌≤◌};
    ghost use Rattle.std.specs.VecDeque.{deque_capacity};

    ghost Value = { Gapped };

    ghost coded = { coded_gapped };

    ghost view = { λ a. gapped a.ring.items a.most };

    ghost invariant = { λ a. IsBounded (kept_in (gapped a.ring.items a.most)) × IsOrder (keys_in a.ring.items) a.order.first a.order.numbers.items × (a.ring.capacity ≡ places_for a.most) × (a.ring.capacity ≤ deque_capacity a.order.numbers) };
}

impl Row {
    /// A row that holds nothing yet, and keeps the last `most` pairs: 1 to 4,096. All its room is made here.
    ///
    /// # Errors
    ///
    /// `AllocError` where its memory was refused.
    pub fn new(alloc: Global, most: usize) -> Result<Row, AllocError>
        requires some { 1 ≤ most }
        requires limit { most ≤ 4096 }
        ensures { IfOk result (λ row. row ≡ gapped [] most) }
    {
        let places = most + most.min(MOST_BEYOND);
        Ok(Row {
            ring: HeapCircularBuffer::with_capacity(alloc, places)?,
            order: Order::new(alloc, places)?,
            most,
        })
    }

    /// How many pairs there are.
    pub fn len(&self) -> usize
        ensures value { result ≡ length (present self.now.row) }
        ensures bounded { IsBounded (kept_in self.now) }
    {
        self.order.numbers.len()
    }

    /// How many pairs are kept at most.
    pub fn most(&self) -> usize
        ensures { result ≡ self.now.most }
    {
        self.most
    }

    /// The reply at a place, gaps counted: one look.
    pub fn reply_at(&self, place: usize) -> Option<&[u8]>
        ensures { option_copied result ≡ bytes_there place self.now.row }
    {
        match pair_at(&self.ring, place) {
            Some(entry) => Some(entry.bytes.as_slice()),
            None => None,
        }
    }

    /// The place of a key's pair, gaps counted: log k steps for k pairs. Each pair has a key of its own.
    pub fn find(&self, key: &BorrowedKey<'_>) -> Option<usize>
        ensures found { IsFound (keys_in self.now.row) key.now result }
        ensures distinct { AreDistinct (present self.now.row) }
    {
        self.order.find(&self.ring, key)
    }

    /// Whether a key has a pair.
    pub fn has(&self, key: &BorrowedKey<'_>) -> bool
        ensures { result ≡ has_pair key.now (keys_of (kept_in self.now)) }
    {
        self.find(key).is_some()
    }

    /// Keeps a pair, whose key no kept pair has: the caller knows that. Where as many are there as are kept at most,
    /// the oldest is handed back. It takes no memory. For k kept pairs it costs log k steps, or one where the key
    /// comes behind all others, and two moves of at most k bytes, or none where keys come in their order and leave in
    /// it. Where no place is free, the gaps are closed first.
    #[inline(always)]
    pub fn push(&mut self, entry: Entry) -> Option<Entry>
        requires { bytes_for (key_of entry) (present self.old.row) ≡ None }
        ensures pairs { kept_in self.new ≡ with_pair (kept_in self.old) entry }
        ensures dropped { result ≡ dropped_by (kept_in self.old) entry }
    {
        let dropped = self.make_room();
        self.order.insert(&self.ring, &entry);
        put_last(&mut self.ring, entry);
        dropped
    }

    /// Makes room for one more pair.
    fn make_room(&mut self) -> Option<Entry>
        ensures pairs { kept_in self.new ≡ kept_list (keep_last (self.old.most - 1) (present self.old.row)) self.old.most }
        ensures dropped { result ≡ (if nat_lt (length (present self.old.row)) self.old.most then None else slice_get (present self.old.row) 0) }
        ensures room { length self.new.row < places_for self.new.most }
    {
        if self.len() >= self.most {
            return self.pop_oldest();
        }
        if self.ring.len() >= self.ring.capacity() {
            self.settle();
        }
        None
    }

    /// Takes the oldest pair, and with it the gaps in front of it.
    fn pop_oldest(&mut self) -> Option<Entry>
        ensures row { present self.new.row ≡ drop 1 (present self.old.row) }
        ensures most { self.new.most ≡ self.old.most }
        ensures oldest { result ≡ slice_get (present self.old.row) 0 }
        ensures room { 0 < length (present self.old.row) → length self.new.row < places_for self.new.most }
    {
        for _at in 0..self.ring.len() {
            self.order.remove_front(&self.ring);
            if let Some(entry) = pop(&mut self.ring) {
                return Some(entry);
            }
        }
        None
    }

    /// Removes what an acknowledgement names, and leaves gaps. It takes no memory. For n ranges and k pairs it costs
    /// n log k steps, two moves of at most k bytes for each range that names some, and a constant for each pair that
    /// goes.
    pub fn forget(&mut self, mid: &Mid, ranges: &[AckRange])
        ensures { kept_in self.new ≡ forgotten (kept_in self.old) mid.now ranges.now }
    {
        for range in ranges {
            self.order.forget(&mut self.ring, mid, range);
        }
    }

    /// Makes the changes of a burst, one after another, as `Kept::change` does.
    pub fn change(&mut self, turns: &[Turn<'_>], entries: Vec<Entry>)
        requires { AreNew (kept_in self.old) (changes_of turns.now entries.items) }
        ensures changed { kept_in self.new ≡ kept_after (kept_in self.old) (changes_of turns.now entries.items) }
    {
        let mut entries = entries.into_iter();
        for turn in turns {
            match turn {
                Turn::Keep => {
                    if let Some(entry) = entries.next() {
                        self.push(entry);
                    }
                }
                Turn::Forget(removal) => self.forget(removal.mid.mid(), removal.ranges.as_slice()),
            }
        }
    }

    /// Closes the gaps, where there are any: one pass over the places.
    pub fn settle(&mut self)
        ensures kept { kept_in self.new ≡ kept_in self.old }
        ensures whole { IsWhole self.new }
    {
        if self.len() < self.ring.len() {
            self.order.number_anew(&self.ring);
            close_gaps(&mut self.ring);
        }
    }

    /// A pair of the key at a place, with an empty reply.
    fn key_alone(&self, alloc: Global, place: usize) -> Option<Entry>
        ensures { option_map key_of result ≡ option_map key_of (slice_index_or self.now.row place None) }
    {
        match pair_at(&self.ring, place) {
            Some(entry) => Some(entry.key().alone(alloc)),
            None => None,
        }
    }

    /// The same keys, without the replies.
    ///
    /// # Errors
    ///
    /// `AllocError` where its memory was refused.
    pub fn keys(&self, alloc: Global) -> Result<Row, AllocError>
        ensures keys { IfOk result (λ row. keys_in row.row ≡ keys_in self.now.row) }
        ensures most { IfOk result (λ row. row.most ≡ self.now.most) }
    {
        let places = self.ring.capacity();
        let mut ring = HeapCircularBuffer::with_capacity(alloc, places)?;
        for at in 0..self.ring.len() {
            ring.push_back(self.key_alone(alloc, at));
        }
        let order = self.order.copy(alloc, places)?;
        Ok(Row {
            ring,
            order,
            most: self.most,
        })
    }

    /// Keeps a key, without a reply, where no pair has it.
    pub fn push_key(&mut self, alloc: Global, key: &BorrowedKey<'_>)
        ensures keys { last_place key.now (keys_of (kept_in self.old)) ≡ None → keys_of (kept_in self.new) ≡ keep_last self.old.most (keys_of (kept_in self.old) ++ key.now ∷ []) }
        ensures most { self.new.most ≡ self.old.most }
    {
        if !self.has(key) {
            self.push(key.get().alone(alloc));
        }
    }
}
