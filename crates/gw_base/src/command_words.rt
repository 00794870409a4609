//! The words of actions and commands: which context, which command, which service state.

use crate::ids::CtxNum;
use crate::media::MediaAddr;

/// A ContextID as an action has it (RFC 3525, section 8.1.2 and Annex B.2, `ContextID`).
#[derive(Clone, Copy, PartialEq, Eq)]
pub enum CtxRef {
    /// `-`: the null context.
    Null,
    /// `*`: every context.
    All,
    /// `$`: a context to be made.
    Choose,
    /// The context of this number.
    Num(CtxNum),
}

/// A command (RFC 3525, section 7.2).
#[derive(Clone, Copy, Debug, PartialEq, Eq)]
pub enum Verb {
    /// Puts a termination into the action's context.
    Add,
    /// Changes the properties of a termination.
    Modify,
    /// Takes a termination out of its context and puts it into the action's.
    Move,
    /// Takes a termination out of its context.
    Subtract,
    /// Requests the values that a termination has.
    AuditValue,
    /// Requests the values that a termination may have.
    AuditCapability,
    /// Reports events.
    Notify,
    /// Reports a change of service.
    ServiceChange,
}

/// The service state of a termination (RFC 3525, section 7.1.5).
#[derive(Clone, Copy, PartialEq, Eq)]
pub enum Service {
    /// `Test`: it is being tested.
    Test,
    /// `OutOfService`: it cannot carry media.
    OutOfService,
    /// `InService`: it can.
    InService,
}

/// What of its configuration a gateway needs to execute a command.
#[derive(Clone, Copy, PartialEq, Eq)]
pub struct Rules {
    /// The address that a `$` of an ephemeral termination's Local becomes.
    pub media: MediaAddr,
    /// How many members a context may have: 1 to 64.
    pub members: u8,
}
