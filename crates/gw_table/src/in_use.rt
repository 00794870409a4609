//! Bits of the entries that stand in their places, so that a search for a free identifier passes by many at a time.

ghost use Rattle.std.specs.Prelude.{◌≡◌, ℕ, ◌<◌, ◌≤◌, true, is_some};
ghost use Rattle.gw_table.specs.Maps.{term, ctx, number};
ghost use Rattle.gw_table.specs.Marking.{IsNumberSet, IsSlotSet};
ghost use Rattle.gw_table.specs.Reserved.{slot_name};
ghost use Rattle.gw_table.specs.Stored.{maps_of};

use crate::reserved::slot_of;
use crate::tables::Tables;
use gw_base::{CtxNum, TermName};
use gw_bits::BitSet;

/// Sets the bit of a number where its context stands now, and else clears it.
pub(crate) fn set_number(numbers: &mut BitSet, number: CtxNum, stands: bool)
    ensures { IsNumberSet number.0 stands numbers.old numbers.new }
{
    if stands {
        numbers.mark(number.0);
    } else {
        numbers.unmark(number.0);
    }
}

/// Sets the bit of a slot where its termination stands now, and else clears it. Other names have no bit.
pub(crate) fn set_slot(slots: &mut BitSet, name: &TermName, stands: bool)
    ensures { IsSlotSet name.now stands slots.old slots.new }
{
    let Some(slot) = slot_of(name) else {
        return;
    };
    if stands {
        slots.mark(u32::from(slot));
    } else {
        slots.unmark(u32::from(slot));
    }
}

impl Tables {
    /// The first number that may be free, from one on to another; the other one where none before it is. There is a
    /// context with each number that is passed by, and `find_ctx` answers whether there is one with the number that is
    /// answered. The work is a step for each 64 numbers.
    pub fn next_number(&self, from: u32, to: u32) -> u32
        requires { from ≤ to }
        ensures behind { from ≤ result }
        ensures within { result ≤ to }
        ensures passed { (n : ℕ) → from ≤ n → n < result → is_some (ctx (maps_of self.now) (number n)) ≡ true }
    {
        self.numbers.first_unmarked(from, to)
    }

    /// The first slot below 4,096 that may be free, from one on to another; the other one where none before it is.
    /// There is a termination of each slot that is passed by, and `find_term` answers whether there is one of the slot
    /// that is answered. The work is a step for each 64 slots.
    pub fn next_slot(&self, from: u32, to: u32) -> u32
        requires order { from ≤ to }
        requires small { to ≤ 4096 }
        ensures behind { from ≤ result }
        ensures within { result ≤ to }
        ensures passed { (s : ℕ) → from ≤ s → s < result → is_some (term (maps_of self.now) (slot_name s)) ≡ true }
    {
        self.slots.first_unmarked(from, to)
    }
}
