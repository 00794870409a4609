//! How many workers execute a burst.

ghost use Rattle.std.specs.Prelude.{◌≡◌, ◌≤◌, ℕ, None, Some};

/// How many workers, in threads, execute the transactions of a burst: 1 to 64.
#[derive(Clone, Copy)]
pub struct Workers {
    count: u32,
    ghost some: { 1 ≤ count },
    ghost limit: { count ≤ 64 },
}

impl Workers {
    /// A thread alone, that of the caller.
    pub(crate) const ONE: Workers = Workers { count: 1 };

    /// As many as a number says; one where there is none. The command line's reader lets no other number than 1 to 64
    /// through.
    pub(crate) fn of(number: Option<u64>) -> Workers
        ensures said { (count : ℕ) → number ≡ Some count → 1 ≤ count → count ≤ 64 → result.count ≡ count }
        ensures alone { number ≡ None → result.count ≡ 1 }
    {
        match number {
            Some(count @ 1..=64) => Workers {
                count: count as u32,
            },
            _ => Workers::ONE,
        }
    }

    /// How many.
    pub(crate) fn count(self) -> u32
        ensures value { result ≡ self.count }
        ensures some { 1 ≤ result }
        ensures limit { result ≤ 64 }
    {
        self.count
    }
}
