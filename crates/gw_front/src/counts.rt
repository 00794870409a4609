//! How much a replay executed.

ghost use Rattle.std.specs.Prelude.{◌≡◌, ◌+◌, IfSome};

/// How much a replay executed.
#[derive(Clone, Copy, Debug, PartialEq, Eq)]
pub struct Counts {
    /// How many bursts were read and executed.
    pub bursts: u64,
    /// How many datagrams the bursts had.
    pub datagrams: u64,
    /// How many answers were written.
    pub replies: u64,
}

impl Counts {
    /// Nothing was executed.
    pub(crate) const NONE: Counts = Counts {
        bursts: 0,
        datagrams: 0,
        replies: 0,
    };

    /// One burst more, of so many datagrams, with so many answers; none where a number is greater than a `u64` can be.
    pub(crate) fn with_burst(self, datagrams: usize, replies: usize) -> Option<Counts>
        ensures bursts { IfSome result (λ counts. counts.bursts ≡ self.bursts + 1) }
        ensures datagrams { IfSome result (λ counts. counts.datagrams ≡ self.datagrams + datagrams) }
        ensures replies { IfSome result (λ counts. counts.replies ≡ self.replies + replies) }
    {
        Some(Counts {
            bursts: self.bursts.checked_add(1)?,
            datagrams: self.datagrams.checked_add(datagrams as u64)?,
            replies: self.replies.checked_add(replies as u64)?,
        })
    }
}
