//! How a gateway is served.

use crate::controllers::Controller;

/// How a gateway is served.
#[derive(Clone, Copy)]
pub struct ServeOptions<'a> {
    /// How many threads execute the transactions of a burst: 1 to 64.
    pub workers: u32,
    /// After so many bursts serving ends, with 0 at once; without a number it goes on.
    pub bursts: Option<u64>,
    /// Whose datagrams are taken; where there is none, those of every sender.
    pub controllers: &'a [Controller],
    /// A report is written after a burst where so many seconds have gone since the last one; without a number there is
    /// none.
    pub report: Option<u64>,
    /// After so many bursts in a row that were dropped for memory, one at the least, serving ends; without a number it
    /// goes on.
    pub give_up: Option<u64>,
}
