//! A meeting: who comes waits until all others have come, up to a limit. It shows that workers run at the same time.

use crate::tally::Tally;
use gw_draw::Gate;
use std::alloc::{AllocError, Global};
use std::rt::Clock;
use std::sync::atomic::AtomicU64;
use std::sync::atomic::Ordering::SeqCst;
use std::thread;
use std::time::Duration;

/// How many turns a wait has at most.
const TURNS: u32 = 10_000;

/// How long a turn sleeps, in microseconds.
const TURN: u64 = 100;

/// Where jobs meet. As a gate, they meet before they are executed.
#[derive(Drop)]
pub struct Meeting<'r, R> {
    rt: &'r R,
    came: Tally,
    /// The one that waits; none: each waits.
    waits: Option<usize>,
    given_up: AtomicU64,
}

impl<'r, R: Clock> Meeting<'r, R> {
    /// Nobody has come yet.
    ///
    /// # Errors
    ///
    /// `AllocError` where an allocation was refused.
    pub fn new(
        rt: &'r R,
        alloc: Global,
        jobs: u32,
        waits: Option<usize>,
    ) -> Result<Meeting<'r, R>, AllocError> {
        Ok(Meeting {
            rt,
            came: Tally::new(alloc, jobs)?,
            waits,
            given_up: AtomicU64::new(0),
        })
    }

    /// Waits until all have come, or up to the limit.
    fn wait(&self) {
        for _turn in 0..TURNS {
            if self.came.is_everywhere() {
                return;
            }
            thread::sleep(self.rt, Duration::from_micros(TURN));
        }
        self.given_up.store(1, SeqCst);
    }

    /// The job at this place comes.
    pub fn come(&self, place: usize) {
        self.came.note(place);
        match self.waits {
            Some(one) if one != place => {}
            _ => self.wait(),
        }
    }

    /// Whether nobody waited up to the limit.
    pub fn was_met(&self) -> bool {
        self.given_up.load(SeqCst) == 0
    }
}

impl<R: Clock + Sync> Gate for Meeting<'_, R> {
    fn pass(&self, place: usize) {
        self.come(place);
    }
}
