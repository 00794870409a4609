//! Bits of one word, and words that are full.

ghost use Rattle.std.specs.Prelude.{◌≡◌, ◌≢◌, ℕ, ◌+◌, ◌-◌, ◌<◌, ◌≤◌, ◌^◌, max, length, slice_index};
ghost use Rattle.std.specs.Int.{bit_at};

/// The bits of a word.
pub(crate) const BITS: u32 = 64;

/// The first bit that is 0, from a place of the word on, or 64 where there is none.
pub(crate) fn first_clear(word: u64, start: u32) -> u32
    requires { start < 64 }
    ensures behind { start ≤ result }
    ensures within { result ≤ 64 }
    ensures before { (i : ℕ) → start ≤ i → i < result → bit_at word i ≡ 1 }
    ensures clear { result < 64 → bit_at word result ≡ 0 }
    ensures full { start ≡ 0 → result ≡ 64 → word ≡ 2 ^ 64 - 1 }
{
    let clear = !word >> start;
    if clear == 0 {
        BITS
    } else {
        start + clear.trailing_zeros()
    }
}

/// The first word that is not full, among those from one on to another, or the end.
pub(crate) fn first_unfilled(words: &[u64], from: usize, end: usize) -> usize
    requires { end ≤ length words.now }
    ensures behind { from ≤ result }
    ensures within { result ≤ max from end }
    ensures before { (k : ℕ) → from ≤ k → k < result → slice_index words.now k ≡ 2 ^ 64 - 1 }
    ensures unfilled { result < end → slice_index words.now result ≢ 2 ^ 64 - 1 }
{
    let mut at = from;
    while at < end && words[at] == u64::MAX {
        at += 1;
    }
    at
}
