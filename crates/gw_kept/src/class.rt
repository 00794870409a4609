//! The classes of a burst's items.

/// What is done with an item of a burst.
#[derive(Clone, Copy, PartialEq, Eq)]
pub enum Class {
    /// A request that is executed, and whose reply is kept.
    New,
    /// A request that gets the reply of an earlier one.
    Repeat(Source),
    /// A request that comes behind 1,024 new ones: it is refused with error 510 and not kept.
    Over,
    /// An item that is no request and gets no answer: an acknowledgement, or one of no effect.
    Nothing,
}

/// Where the reply of a repeat is.
#[derive(Clone, Copy, PartialEq, Eq)]
pub enum Source {
    /// Among the kept pairs at the burst's start: the place from the oldest on, which is 0.
    Kept(usize),
    /// That of a new request of this burst: its place among these, from 0.
    Place(usize),
}
