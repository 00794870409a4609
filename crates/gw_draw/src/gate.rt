//! What each worker passes before a job.

/// Passed by a worker just before it executes a job: what a test counts or holds up. A `pass` that never returns holds
/// up the whole call.
pub trait Gate: Sync {
    /// The job of this number, from 0, is executed next.
    fn pass(&self, place: usize);
}

/// A gate that does nothing.
pub struct OpenGate;

impl Gate for OpenGate {
    fn pass(&self, _place: usize) {}
}
