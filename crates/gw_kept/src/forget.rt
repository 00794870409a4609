//! What an acknowledgement removes: the pairs that a range names stand together in the order, and each leaves a gap.

ghost use Rattle.std.specs.Prelude.{◌≡◌, ◌≤◌, ◌<◌, ◌∷◌, [], ℕ, length, map, nat_le, nat_lt, not};
ghost use Rattle.std.specs.VecDeque.{deque_capacity, deque_len};
ghost use Rattle.std.specs.Ordering.{is_gt, is_lt};
ghost use Rattle.circular_buffer.specs.Buffer.{buffer};
ghost use Rattle.gw_kept.specs.declared.entry.RequestKey.{RequestKey as Key};
ghost use Rattle.gw_kept.specs.Pairs.{key_by};
ghost use Rattle.gw_kept.specs.Rows.{keys_in, left_of};
ghost use Rattle.gw_kept.specs.Order.{key_cmp, key_there, IsOrder, IsSpan};

use crate::order::Order;
use crate::ring::{Ring, free};
use gw_base::Mid;
use gw_msg::AckRange;

impl Order {
    /// From where on in the order no key comes before this one.
    fn start_of(&self, ring: &Ring, mid: &Mid, id: u32) -> usize
        ensures bound { result ≤ deque_len self.now.numbers }
        ensures start { (order : IsOrder (keys_in ring.now.items) self.now.first self.now.numbers.items) → (at : ℕ) (d : Key) → at < length order.places → nat_le result at ≡ not (is_lt (key_cmp (key_there (keys_in ring.now.items) order.places at d) (key_by mid.now id))) }
    {
        match self.search(ring, mid, id) {
            Ok(at) | Err(at) => at,
        }
    }

    /// Up to where in the order no key comes behind this one.
    fn end_of(&self, ring: &Ring, mid: &Mid, id: u32) -> usize
        ensures bound { result ≤ deque_len self.now.numbers }
        ensures end { (order : IsOrder (keys_in ring.now.items) self.now.first self.now.numbers.items) → (at : ℕ) (d : Key) → at < length order.places → nat_lt at result ≡ not (is_gt (key_cmp (key_there (keys_in ring.now.items) order.places at d) (key_by mid.now id))) }
    {
        match self.search(ring, mid, id) {
            Ok(at) => at + 1,
            Err(at) => at,
        }
    }

    /// What a range names stands in the order from the one place to before the other.
    fn span(&self, ring: &Ring, mid: &Mid, range: &AckRange) -> (usize, usize)
        ensures bound { (result.0 ≤ deque_len self.now.numbers) × (result.1 ≤ deque_len self.now.numbers) }
        ensures span { (order : IsOrder (keys_in ring.now.items) self.now.first self.now.numbers.items) → IsSpan (keys_in ring.now.items) order.places mid.now range.now result }
    {
        (
            self.start_of(ring, mid, range.first),
            self.end_of(ring, mid, range.last),
        )
    }

    /// Frees each pair of this sender whose number is in the range, and removes the numbers of all of them at once.
    pub fn forget(&mut self, ring: &mut Ring, mid: &Mid, range: &AckRange)
        requires { IsOrder (keys_in ring.old.items) self.old.first self.old.numbers.items }
        ensures left { ring.new ≡ buffer (map (left_of mid.now (range.now ∷ [])) ring.old.items) ring.old.capacity }
        ensures order { IsOrder (keys_in ring.new.items) self.new.first self.new.numbers.items }
        ensures room { deque_capacity self.new.numbers ≡ deque_capacity self.old.numbers }
    {
        let (start, end) = self.span(ring, mid, range);
        if start < end {
            for at in start..end {
                free(ring, self.place(self.numbers[at]));
            }
            self.numbers.drain(start..end);
        }
    }
}
