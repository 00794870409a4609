//! What was executed while a gateway was served.

ghost use Rattle.std.specs.Prelude.{◌≡◌, OnOk, IfErr};
ghost use Rattle.gw_front.specs.declared.serve_fault.ServeFault.TheVariants.{Full as HasEnough};
ghost use Rattle.gw_front.specs.TotalNumbers.{IsFull, no_totals, with_burst, with_dropped};

use crate::serve_fault::ServeFault;
use gw_engine::BurstCounts;

/// What was executed while a gateway was served. A number that is full stays.
#[derive(Clone, Copy, Debug, PartialEq, Eq)]
pub struct Totals {
    /// Bursts that were executed.
    pub bursts: u64,
    /// Their datagrams.
    pub datagrams: u64,
    /// Requests that were new, and so executed.
    pub executed: u64,
    /// Requests that were answered with a kept reply.
    pub repeats: u64,
    /// Requests behind 1,024 new ones of their burst, which were answered with error 510.
    pub over: u64,
    /// Datagrams that are no message, which were answered with error 400 or 406.
    pub errors: u64,
    /// Answers to all of these.
    pub answers: u64,
    /// Bursts in a row that were dropped for memory, up to the last one.
    pub dropped_in_row: u64,
}

impl Totals {
    /// Nothing was executed.
    pub(crate) const NONE: Totals = Totals {
        bursts: 0,
        datagrams: 0,
        executed: 0,
        repeats: 0,
        over: 0,
        errors: 0,
        answers: 0,
        dropped_in_row: 0,
    };

    /// Those behind a burst that was executed.
    pub(crate) fn with_burst(self, datagrams: usize, counts: BurstCounts, answers: usize) -> Totals
        ensures { result ≡ with_burst self datagrams counts answers }
    {
        Totals {
            bursts: self.bursts.saturating_add(1),
            datagrams: self.datagrams.saturating_add(datagrams as u64),
            executed: self.executed.saturating_add(counts.executed as u64),
            repeats: self.repeats.saturating_add(counts.repeats as u64),
            over: self.over.saturating_add(counts.over as u64),
            errors: self.errors.saturating_add(counts.errors as u64),
            answers: self.answers.saturating_add(answers as u64),
            dropped_in_row: 0,
        }
    }

    /// Those behind a burst that was dropped for memory.
    pub(crate) fn with_dropped(self) -> Totals
        ensures { result ≡ with_dropped self }
    {
        Totals {
            dropped_in_row: self.dropped_in_row.saturating_add(1),
            ..self
        }
    }
}

/// Ends serving where bursts are dropped too often.
///
/// # Errors
///
/// `Full` where as many bursts in a row were dropped as may be, one at the least.
pub(crate) fn check_dropped(give_up: Option<u64>, totals: &Totals) -> Result<(), ServeFault>
    ensures ok { OnOk result (¬ IsFull give_up totals.now) }
    ensures fault { IfErr result (λ fault. (fault ≡ HasEnough) × IsFull give_up totals.now) }
{
    match give_up {
        Some(most) if totals.dropped_in_row >= most && totals.dropped_in_row > 0 => {
            Err(ServeFault::Full)
        }
        _ => Ok(()),
    }
}
