//! Who executes jobs.

ghost use Rattle.std.specs.Prelude.{◌≡◌, ◌≤◌};

use crate::gate::Gate;
use std::thread::Threads;

/// So many workers in threads of that runtime, 1 to 64. They pass the gate before each job.
#[derive(Drop)]
pub struct Workers<'r, R, G> {
    /// Where threads are started.
    pub rt: &'r R,
    /// Passed before each job.
    pub gate: &'r G,
    /// The caller is one of them.
    pub count: u32,
    ghost some: { 1 ≤ count },
    ghost limit: { count ≤ 64 },
}

impl<'r, R: Threads + Sync, G: Gate> Workers<'r, R, G> {
    /// So many workers, 1 to 64: the caller, and the others in threads of that runtime.
    pub fn new(rt: &'r R, count: u32, gate: &'r G) -> Self
        requires some { 1 ≤ count }
        requires limit { count ≤ 64 }
        ensures { result.count ≡ count }
    {
        Workers { rt, gate, count }
    }

    /// One of them, if the others are of no use.
    pub fn alone_unless(&self, are_of_use: bool) -> Self {
        Workers {
            rt: self.rt,
            gate: self.gate,
            count: if are_of_use { self.count } else { 1 },
        }
    }

    /// As many of them as so much work is worth: one, and one more for each whole share.
    pub fn for_work(&self, work: usize, share: usize) -> Self
        requires { 1 ≤ share }
    {
        let worth = u32::try_from(work / share).unwrap_or(u32::MAX);
        Workers {
            rt: self.rt,
            gate: self.gate,
            count: worth.saturating_add(1).min(self.count),
        }
    }
}
