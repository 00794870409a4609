//! A clock whose readings are known beforehand.

use std::io::{self, Error, ErrorKind};
use std::sync::Wait;
use std::sync::atomic::{AtomicUsize, Ordering};
use std::thread::Threads;
use std::time::{Clock, Duration};

/// What the clock reads, one after another.
#[derive(Drop)]
pub struct Readings {
    /// In milliseconds; none where a reading fails.
    pub times: Vec<Option<u64>>,
}

/// A runtime with a clock of these readings, the last of which goes on. All else is that of the runtime behind it.
#[derive(Drop)]
pub struct Clocked<'a, R> {
    rt: &'a R,
    times: &'a [Option<u64>],
    next: AtomicUsize,
}

impl<'a, R> Clocked<'a, R> {
    /// Nothing was read yet.
    pub fn new(rt: &'a R, readings: &'a Readings) -> Clocked<'a, R> {
        Clocked {
            rt,
            times: readings.times.as_slice(),
            next: AtomicUsize::new(0),
        }
    }
}

impl<R: Wait> Wait for Clocked<'_, R> {}

impl<R: Threads> Threads for Clocked<'_, R> {}

impl<R> Clock for Clocked<'_, R> {
    fn monotonic(&self) -> io::Result<Duration> {
        let next = self.next.fetch_add(1, Ordering::SeqCst);
        let last = self.times.last().copied();
        let reading = self.times.get(next).copied().or(last);
        match reading {
            Some(Some(time)) => Ok(Duration::from_millis(time)),
            Some(None) => Err(Error::from(ErrorKind::Unsupported)),
            None => Ok(Duration::ZERO),
        }
    }

    fn since_1970(&self) -> io::Result<Duration> {
        self.monotonic()
    }
}
