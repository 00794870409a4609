//! How many workers execute the bursts of a gateway.

ghost use Rattle.std.specs.Prelude.{◌≤◌};

use cases_text::{CaseFault, number_of};

/// The most workers.
const MOST: u32 = 64;

/// A number of workers, 1 to 64.
#[derive(Clone, Copy)]
pub struct Workers {
    pub number: u32,
    ghost some: { 1 ≤ number },
    ghost limit: { number ≤ 64 },
}

/// One worker.
pub const ALONE: Workers = Workers { number: 1 };

/// The numbers that each case is tried with.
pub const EACH: [Workers; 4] = [
    Workers { number: 1 },
    Workers { number: 2 },
    Workers { number: 3 },
    Workers { number: 64 },
];

impl Workers {
    /// By its word.
    ///
    /// # Errors
    ///
    /// `Form` where it is no number of 1 to 64.
    pub fn read(word: &[u8]) -> Result<Workers, CaseFault> {
        match number_of(word) {
            Some(number) if (1..=MOST).contains(&number) => Ok(Workers { number }),
            _ => Err(CaseFault::Form),
        }
    }
}
