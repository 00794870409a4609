//! How often something happened at each place, counted by all threads.

use std::alloc::{AllocError, Global};
use std::sync::atomic::AtomicU64;
use std::sync::atomic::Ordering::SeqCst;

/// A count for each place.
#[derive(Drop)]
pub struct Tally {
    counts: Vec<AtomicU64>,
}

impl Tally {
    /// So many places, at which nothing happened yet.
    ///
    /// # Errors
    ///
    /// `AllocError` where an allocation was refused.
    pub fn new(alloc: Global, places: u32) -> Result<Tally, AllocError> {
        let mut counts = Vec::new(alloc);
        for _ in 0..places {
            counts.push(AtomicU64::new(0))?;
        }
        Ok(Tally { counts })
    }

    /// It happens at this place.
    pub fn note(&self, place: usize) {
        if let Some(count) = self.counts.get(place) {
            count.fetch_add(1, SeqCst);
        }
    }

    /// How often it happened at this place.
    pub fn at(&self, place: usize) -> u64 {
        match self.counts.get(place) {
            Some(count) => count.load(SeqCst),
            None => 0,
        }
    }

    /// At how many places it happened so often.
    pub fn places_with(&self, wanted: u64) -> u64 {
        let mut places = 0u64;
        for count in self.counts.iter() {
            if count.load(SeqCst) == wanted {
                places = places.wrapping_add(1);
            }
        }
        places
    }

    /// Whether it happened nowhere else than everywhere.
    pub fn is_everywhere(&self) -> bool {
        self.places_with(0) == 0
    }
}
