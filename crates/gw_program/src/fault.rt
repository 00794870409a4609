//! Why the program ends with status 1, and the line that says so.

ghost use Rattle.std.specs.Prelude.{◌≡◌};
ghost use Rattle.gw_program.specs.Faults.{of_text, of_config, of_replay, of_serve};
ghost use Rattle.gw_program.specs.declared.fault.Fault.TheVariants.{NoMemory as OutOfMemory};

use gw_engine::ConfigFault;
use gw_front::{ConfigTextFault, ReplayFault, ServeFault};
use std::alloc::AllocError;
use std::error::Error;
use std::fmt;

/// Why the program ends with status 1. Each has its line on standard error.
#[derive(Clone, Copy, Debug)]
pub enum Fault<'a> {
    /// The configuration file of that name cannot be read, or has more than 16,777,216 bytes.
    CannotRead(&'a str),
    /// The first line of the configuration, from 1, that is of no form or repeats a keyword; where a keyword is
    /// missing, the number of lines plus 1.
    ConfigLine(u32),
    /// A limit of the configuration is not kept.
    ConfigLimit,
    /// A termination of the configuration has a reserved name.
    ConfigReservedName,
    /// A termination of the configuration is named twice.
    ConfigDuplicateName,
    /// A header of the replay is of no form, or a datagram has another byte than LF behind it.
    ReplayBadHeader,
    /// The replay ends within a header or a datagram.
    ReplayTruncated,
    /// A datagram of the replay has more than 65,507 bytes, or a burst more than 256 datagrams.
    ReplayTooLong,
    /// Standard input could not be read.
    ReplayRead,
    /// Standard output could not be written.
    ReplayWrite,
    /// The address is none, or cannot be bound.
    ServeBind,
    /// The system refused to wait for datagrams.
    ServePoll,
    /// A datagram could not be received.
    ServeReceive,
    /// Memory was refused.
    NoMemory,
}

impl fmt::Display for Fault<'_> {
    ghost use Rattle.std.specs.Prelude.{Some};
    ghost use Rattle.gw_program.specs.Faults.{line_of};

    ghost output = { λ fault. Some (line_of fault) };

    fn fmt<W: fmt::Write>(&self, f: &mut fmt::Formatter<W>) -> fmt::Result {
        match self {
            Fault::CannotRead(file) => write!(f, "h248gw: cannot read {file}"),
            Fault::ConfigLine(number) => write!(f, "h248gw: config line {number}"),
            Fault::ConfigLimit => f.write_str("h248gw: config limit"),
            Fault::ConfigReservedName => f.write_str("h248gw: config reserved name"),
            Fault::ConfigDuplicateName => f.write_str("h248gw: config duplicate name"),
            Fault::ReplayBadHeader => f.write_str("h248gw: replay bad header"),
            Fault::ReplayTruncated => f.write_str("h248gw: replay truncated"),
            Fault::ReplayTooLong => f.write_str("h248gw: replay too long"),
            Fault::ReplayRead => f.write_str("h248gw: replay read"),
            Fault::ReplayWrite => f.write_str("h248gw: replay write"),
            Fault::ServeBind => f.write_str("h248gw: serve bind"),
            Fault::ServePoll => f.write_str("h248gw: serve poll"),
            Fault::ServeReceive => f.write_str("h248gw: serve receive"),
            Fault::NoMemory => f.write_str("h248gw: no memory"),
        }
    }
}

impl Error for Fault<'_> {}

impl<'a> From<AllocError> for Fault<'a> {
    ghost from_gives = { λ _ fault. fault ≡ OutOfMemory };

    fn from(_e: AllocError) -> Fault<'a> {
        Fault::NoMemory
    }
}

impl<'a> From<ConfigTextFault> for Fault<'a> {
    ghost from_gives = { λ text fault. fault ≡ of_text text };

    fn from(fault: ConfigTextFault) -> Fault<'a> {
        match fault {
            ConfigTextFault::Line(number) => Fault::ConfigLine(number),
            ConfigTextFault::NoMemory => Fault::NoMemory,
        }
    }
}

impl<'a> From<ConfigFault> for Fault<'a> {
    ghost from_gives = { λ config fault. fault ≡ of_config config };

    fn from(fault: ConfigFault) -> Fault<'a> {
        match fault {
            ConfigFault::LimitOutOfRange(_) => Fault::ConfigLimit,
            ConfigFault::ReservedName => Fault::ConfigReservedName,
            ConfigFault::DuplicateName => Fault::ConfigDuplicateName,
            ConfigFault::NoMemory => Fault::NoMemory,
        }
    }
}

impl<'a> From<ReplayFault> for Fault<'a> {
    ghost from_gives = { λ replay fault. fault ≡ of_replay replay };

    fn from(fault: ReplayFault) -> Fault<'a> {
        match fault {
            ReplayFault::BadHeader => Fault::ReplayBadHeader,
            ReplayFault::Truncated => Fault::ReplayTruncated,
            ReplayFault::TooLong => Fault::ReplayTooLong,
            ReplayFault::Read => Fault::ReplayRead,
            ReplayFault::Write => Fault::ReplayWrite,
            ReplayFault::NoMemory => Fault::NoMemory,
        }
    }
}

impl<'a> From<ServeFault> for Fault<'a> {
    ghost from_gives = { λ serving fault. fault ≡ of_serve serving };

    fn from(fault: ServeFault) -> Fault<'a> {
        match fault {
            ServeFault::Bind => Fault::ServeBind,
            ServeFault::Poll => Fault::ServePoll,
            ServeFault::Receive => Fault::ServeReceive,
            ServeFault::NoMemory | ServeFault::Full => Fault::NoMemory,
        }
    }
}
