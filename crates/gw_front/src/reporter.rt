//! The report of a gateway that is served: one line, each so many seconds.

use crate::losses::Losses;
use crate::totals::Totals;
use gw_engine::Usage;
use std::io::Write;
use std::time::{Clock, Duration, Instant};

/// What a report says beside its times.
#[derive(Clone, Copy)]
pub(crate) struct Report {
    pub(crate) totals: Totals,
    pub(crate) losses: Losses,
    pub(crate) usage: Usage,
}

/// When reports are written, and how long the longest burst took since the last one.
#[derive(Clone, Copy)]
pub(crate) struct Reporter {
    every: Option<Duration>,
    last: Option<Instant>,
    longest: Duration,
}

/// How much later one time is than another; nothing where a clock went back or failed.
fn between(earlier: Option<Instant>, later: Option<Instant>) -> Duration {
    match (earlier, later) {
        (Some(earlier), Some(later)) => later.duration_since(earlier),
        _ => Duration::ZERO,
    }
}

impl Reporter {
    /// A report after each burst that ends so many seconds behind the last report; without a number there is none.
    pub(crate) fn new(rt: &impl Clock, seconds: Option<u64>) -> Reporter {
        let mut reporter = Reporter {
            every: seconds.map(Duration::from_secs),
            last: None,
            longest: Duration::ZERO,
        };
        reporter.last = reporter.now(rt);
        reporter
    }

    /// The time, where reports are written and the clock does not fail.
    pub(crate) fn now(&self, rt: &impl Clock) -> Option<Instant> {
        self.every?;
        Instant::now(rt).ok()
    }

    /// Whether a report is due after a burst that took from then to now. The time to the next one begins now where one
    /// is, and where the clock went back.
    pub(crate) fn is_due(&mut self, begun: Option<Instant>, now: Option<Instant>) -> bool {
        let Some(every) = self.every else {
            return false;
        };
        self.longest = self.longest.max(between(begun, now));
        let is_due = between(self.last, now) >= every;
        if let Some(now) = now {
            self.last = match self.last {
                Some(last) if !is_due => Some(last.min(now)),
                _ => Some(now),
            };
        }
        is_due
    }

    /// Writes the line, and flushes. A writer that fails changes nothing.
    pub(crate) fn write<W: Write>(&mut self, report: &Report, out: &mut W) {
        let longest = self.longest.as_micros();
        self.longest = Duration::ZERO;
        let Report {
            totals,
            losses,
            usage,
        } = *report;
        let written = writeln!(
            out,
            "report bursts={} datagrams={} executed={} repeats={} over={} errors={} answers={} \
             dropped_bursts={} dropped_in_row={} too_long={} not_controller={} failed_sends={} \
             contexts={} terminations={} kept={} longest_us={longest}",
            totals.bursts,
            totals.datagrams,
            totals.executed,
            totals.repeats,
            totals.over,
            totals.errors,
            totals.answers,
            losses.bursts,
            totals.dropped_in_row,
            losses.datagrams,
            losses.strangers,
            losses.sends,
            usage.contexts,
            usage.terminations,
            usage.kept,
        );
        if written.is_ok() {
            let _ = out.flush();
        }
    }
}
