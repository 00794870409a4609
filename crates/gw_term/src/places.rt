//! Four places by the number of a stream, and four by the kind of a tail.

ghost use Rattle.std.specs.Prelude.{◌≡◌};
ghost use Rattle.gw_term.specs.Places.{put_number, at_kind, put_kind};

use gw_desc::KeptKind;

/// A place for each stream that a termination may have.
#[derive(Clone, Copy)]
pub struct PerStream<T> {
    /// That of stream 1.
    pub first: T,
    /// That of stream 2.
    pub second: T,
    /// That of stream 3.
    pub third: T,
    /// That of stream 4.
    pub fourth: T,
}

impl<T: Copy + Drop> PerStream<T> {
    /// What stands in the place of a stream, whose number is 1 to 4.
    pub(crate) fn at(&self, number: u8) -> T {
        match number {
            1 => self.first,
            2 => self.second,
            3 => self.third,
            _ => self.fourth,
        }
    }

    /// This in the place of a stream; there is none for a number that no stream has.
    pub(crate) fn put(&mut self, number: u8, value: T)
        ensures { self.new ≡ put_number number value self.old }
    {
        match number {
            1 => self.first = value,
            2 => self.second = value,
            3 => self.third = value,
            4 => self.fourth = value,
            _ => {}
        }
    }
}

/// A place for each kind of tails that a termination keeps.
#[derive(Clone, Copy)]
pub struct PerKind<T> {
    /// That of Events.
    pub events: T,
    /// That of Signals.
    pub signals: T,
    /// That of a DigitMap.
    pub digit_map: T,
    /// That of an EventBuffer.
    pub event_buffer: T,
}

impl<T: Copy + Drop> PerKind<T> {
    /// What stands in the place of a kind.
    pub(crate) fn at(&self, kind: KeptKind) -> T
        ensures { result ≡ at_kind kind self.now }
    {
        match kind {
            KeptKind::Events => self.events,
            KeptKind::Signals => self.signals,
            KeptKind::DigitMap => self.digit_map,
            KeptKind::EventBuffer => self.event_buffer,
        }
    }

    /// This in the place of a kind.
    pub(crate) fn put(&mut self, kind: KeptKind, value: T)
        ensures { self.new ≡ put_kind kind value self.old }
    {
        match kind {
            KeptKind::Events => self.events = value,
            KeptKind::Signals => self.signals = value,
            KeptKind::DigitMap => self.digit_map = value,
            KeptKind::EventBuffer => self.event_buffer = value,
        }
    }
}
