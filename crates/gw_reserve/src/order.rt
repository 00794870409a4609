//! The cyclic order in which free identifiers are looked for.

ghost use Rattle.std.specs.Prelude.{◌≡◌, ℕ, ◌+◌, ◌-◌, ◌<◌, ◌≤◌, slice_index};
ghost use Rattle.gw_reserve.specs.Searches.{whole_order};

/// So many indices, from a start on and round.
#[derive(Clone, Copy)]
pub(crate) struct Order {
    pub(crate) start: u32,
    pub(crate) limit: u32,
}

/// Indices of an order that rise by one.
#[derive(Clone, Copy)]
pub(crate) struct Stretch {
    /// The first of them.
    pub(crate) from: u32,
    /// The one behind the last.
    pub(crate) to: u32,
}

/// How far the search for free identifiers of one kind has come.
#[derive(Clone, Copy)]
pub(crate) struct Search {
    /// The rank at which it goes on.
    pub(crate) next: u32,
    /// Where the next burst's search is to begin.
    pub(crate) cursor: u32,
}

impl Order {
    /// The index at a rank.
    pub(crate) fn at(self, rank: u32) -> u32
        requires start { self.start ≤ self.limit }
        requires rank { rank < self.limit }
        ensures value { result ≡ slice_index (whole_order self) rank }
        ensures small { result < self.limit }
    {
        let behind = self.limit - self.start;
        if rank < behind {
            self.start + rank
        } else {
            rank - behind
        }
    }

    /// The indices from a rank on, as far as they rise by one: up to the last index, or to the one before the start.
    pub(crate) fn stretch(self, rank: u32) -> Stretch
        requires start { self.start ≤ self.limit }
        requires rank { rank < self.limit }
        ensures some { result.from < result.to }
        ensures limit { result.to ≤ self.limit }
        ensures ranks { rank + (result.to - result.from) ≤ self.limit }
        ensures rising { (k : ℕ) → k < result.to - result.from → slice_index (whole_order self) (rank + k) ≡ result.from + k }
    {
        let behind = self.limit - self.start;
        if rank < behind {
            Stretch {
                from: self.start + rank,
                to: self.limit,
            }
        } else {
            Stretch {
                from: rank - behind,
                to: self.start,
            }
        }
    }
}
