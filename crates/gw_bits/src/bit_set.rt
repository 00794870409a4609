//! A set of small numbers, one bit each.

ghost use Rattle.std.specs.Prelude.{◌≡◌, ◌≢◌, ℕ, ◌<◌, ◌≤◌, true, false, slice_index, IfOk};
ghost use Rattle.gw_bits.specs.BitSets.{has_bit, room, IsBlank};

use crate::bits::{BITS, first_clear, first_unfilled};
use gw_base::NoMemory;
use std::alloc::Global;
use std::marker::Model;

/// Numbers among those below a limit: a bit for each.
#[derive(Drop)]
pub struct BitSet {
    words: Vec<u64>,
}

impl Model for BitSet {
    ghost use Rattle.std.specs.Prelude.{ℕ, List};
    ghost use Rattle.std.specs.Coded.{coded_list, coded_ℕ};

    ghost Value = { List ℕ };

    ghost coded = { coded_list coded_ℕ };

    ghost view = { λ a. a.words.items };
}

impl BitSet {
    /// No room, which takes no memory: no bit is ever set.
    pub fn new(alloc: Global) -> Self
        ensures { IsBlank result }
    {
        BitSet {
            words: Vec::new(alloc),
        }
    }

    /// Room for the numbers below the limit, with no bit set: a bit for each, in words of 64.
    ///
    /// # Errors
    ///
    /// Out of memory.
    pub fn with_room(alloc: Global, limit: u32) -> Result<Self, NoMemory>
        ensures blank { IfOk result IsBlank }
        ensures room { IfOk result (λ bit_set. limit ≤ room bit_set) }
    {
        let words = vec![in alloc; 0u64; limit.div_ceil(BITS) as usize]?;
        Ok(BitSet { words })
    }

    /// Sets the bit of a number, where there is room for it; else nothing changes.
    pub fn mark(&mut self, number: u32)
        ensures in_use { number < room self.old → has_bit self.new number ≡ true }
        ensures no_room { room self.old ≤ number → has_bit self.new number ≡ false }
        ensures others { (n : ℕ) → n ≢ number → has_bit self.new n ≡ has_bit self.old n }
        ensures room { room self.new ≡ room self.old }
    {
        if let Some(word) = self.words.get_mut((number / BITS) as usize) {
            *word |= 1 << (number % BITS);
        }
    }

    /// The bit of the number is not set from now on.
    pub fn unmark(&mut self, number: u32)
        ensures unmarked { has_bit self.new number ≡ false }
        ensures others { (n : ℕ) → n ≢ number → has_bit self.new n ≡ has_bit self.old n }
        ensures room { room self.new ≡ room self.old }
    {
        if let Some(word) = self.words.get_mut((number / BITS) as usize) {
            *word &= !(1 << (number % BITS));
        }
    }

    /// A word of 64 numbers. Where there is no room, no bit is set.
    fn word(&self, index: usize) -> u64
        ensures { result ≡ slice_index self.now index }
    {
        match self.words.get(index) {
            Some(word) => *word,
            None => 0,
        }
    }

    /// The first number whose bit is not set, from one on to another; the other one where all bits below it are set.
    /// The work is a step for each 64 numbers that are passed by.
    pub fn first_unmarked(&self, from: u32, to: u32) -> u32
        requires { from ≤ to }
        ensures behind { from ≤ result }
        ensures within { result ≤ to }
        ensures before { (n : ℕ) → from ≤ n → n < result → has_bit self.now n ≡ true }
        ensures found { result < to → has_bit self.now result ≡ false }
    {
        let first = (from / BITS) as usize;
        let bit = first_clear(self.word(first), from % BITS);
        if bit < BITS {
            return (from - from % BITS + bit).min(to);
        }
        let end = self.words.len().min((to / BITS) as usize + 1);
        let next = first_unfilled(&self.words, first + 1, end);
        let number = next * 64 + first_clear(self.word(next), 0) as usize;
        number.min(to as usize) as u32
    }
}
