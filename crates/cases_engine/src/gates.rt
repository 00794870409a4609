//! A gate that counts: how many waves a burst is executed in.

use cases_meeting::Tally;
use cases_text::Page;
use gw_engine::Gate;
use std::alloc::{AllocError, Global};

/// The most jobs of a wave: the new requests of a burst.
const MOST_JOBS: u32 = 1_024;

/// How often the gate was passed with each number: at 0 once for each wave, at 1 for each that has two jobs, and so on.
#[derive(Drop)]
pub struct Waves {
    passed: Tally,
}

impl Waves {
    /// Nothing was passed yet.
    ///
    /// # Errors
    ///
    /// `AllocError` where an allocation was refused.
    pub fn new(alloc: Global) -> Result<Waves, AllocError> {
        Ok(Waves {
            passed: Tally::new(alloc, MOST_JOBS)?,
        })
    }

    /// How many waves there were, and how many jobs the widest of them had.
    pub fn write(&self, out: &mut Page) {
        let most = u64::from(MOST_JOBS);
        let widest = most.saturating_sub(self.passed.places_with(0));
        out.put(b"waves ");
        out.number(self.passed.at(0));
        out.put(b", widest ");
        out.number(widest);
        out.put(b"\n");
    }
}

impl Gate for Waves {
    fn pass(&self, place: usize) {
        self.passed.note(place);
    }
}
