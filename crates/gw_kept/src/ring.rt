//! The ring of the kept pairs: the oldest is in front, and until a burst ends there is a gap where one was removed.

ghost use Rattle.std.specs.Prelude.{◌≡◌, ◌≤◌, ◌<◌, ◌∷◌, ◌++◌, [], ℕ, None, Some, drop, length, map, slice_index, slice_index_or, slice_set, take, option_copied};
ghost use Rattle.circular_buffer.specs.Buffer.{buffer};
ghost use Rattle.gw_kept.specs.Rows.{most_places, present};

use crate::entry::Entry;
use circular_buffer::HeapCircularBuffer;

/// The places of pairs and gaps.
pub type Ring = HeapCircularBuffer<Option<Entry>>;

/// How many places a ring has at most.
pub const MOST_PLACES: usize = 5120;

/// The pair at a place.
#[inline(always)]
pub fn pair_at(ring: &Ring, place: usize) -> Option<&Entry>
    ensures { option_copied result ≡ slice_index_or ring.now.items place None }
{
    match ring.get(place) {
        Some(pair) => pair.as_ref(),
        None => None,
    }
}

/// Frees the pair at a place: it leaves a gap.
pub fn free(ring: &mut Ring, place: usize)
    ensures { ring.new ≡ buffer (slice_set ring.old.items place None) ring.old.capacity }
{
    if let Some(pair) = ring.get_mut(place) {
        *pair = None;
    }
}

/// Takes the foremost place away, and the pair that stood there.
#[inline(always)]
pub fn pop(ring: &mut Ring) -> Option<Entry>
    ensures pair { result ≡ slice_index_or ring.old.items 0 None }
    ensures items { ring.new ≡ buffer (drop 1 ring.old.items) ring.old.capacity }
{
    match ring.pop_front() {
        Some(pair) => pair,
        None => None,
    }
}

/// Puts a pair behind the others. The caller knows that there is room.
#[inline(always)]
pub fn put_last(ring: &mut Ring, pair: Entry)
    requires { length ring.old.items < ring.old.capacity }
    ensures { ring.new ≡ buffer (ring.old.items ++ Some pair ∷ []) ring.old.capacity }
{
    let _ = ring.try_push_back(Some(pair));
}

/// Closes the gaps: each pair goes from the front to the back, once round.
pub fn close_gaps(ring: &mut Ring)
    ensures { ring.new ≡ buffer (map (λ e. Some e) (present ring.old.items)) ring.old.capacity }
{
    for _at in 0..ring.len() {
        if let Some(pair) = pop(ring) {
            put_last(ring, pair);
        }
    }
}

/// For each place, how many pairs are before it: its own place when the gaps are closed.
pub fn places_left(ring: &Ring) -> [u16; MOST_PLACES]
    requires { length ring.now.items ≤ most_places }
    ensures long { length result ≡ 5120 }
    ensures places { (p : ℕ) → p < length ring.now.items → slice_index result p ≡ length (present (take p ring.now.items)) }
{
    let mut places = [0u16; MOST_PLACES];
    let mut left = 0;
    for at in 0..ring.len() {
        places[at] = left;
        if let Some(_pair) = pair_at(ring, at) {
            left += 1;
        }
    }
    places
}
