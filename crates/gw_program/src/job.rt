//! What the words of the command line ask for.

use crate::workers::Workers;
use gw_front::Controller;

/// How the words ask to serve.
#[derive(Drop)]
pub struct Serving<'a> {
    /// The configuration.
    pub file: &'a str,
    /// The address that is served.
    pub listen: &'a str,
    /// How many execute the transactions of a burst.
    pub workers: Workers,
    /// After how many bursts serving ends.
    pub bursts: Option<u64>,
    /// Whose datagrams are taken; everybody's where there is none.
    pub controllers: Vec<Controller>,
    /// How many seconds lie between two reports.
    pub report: Option<u64>,
    /// After how many bursts in a row that were dropped for memory serving ends.
    pub give_up: Option<u64>,
}

/// What the words ask for.
#[derive(Drop)]
pub enum Job<'a> {
    /// A replay with the built-in configuration.
    BuiltIn,
    /// An answer to one datagram, of the file's gateway or the built-in one.
    Answer {
        file: Option<&'a str>,
    },
    /// The numbers of a configuration.
    Check {
        file: &'a str,
    },
    /// A replay by so many workers, and the tables behind its answers where they are requested.
    Replay {
        file: &'a str,
        audit: bool,
        workers: Workers,
    },
    /// Controllers over UDP.
    Serve(Serving<'a>),
}
