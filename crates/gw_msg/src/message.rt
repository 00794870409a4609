//! The tree of a message (RFC 3525, section 8 and Annex B.2).

use crate::sender::Sender;
use crate::source::RequestSource;
use gw_base::{CtxRef, Flow, Listed, TermRef, TxId, Verb};
use gw_desc::Descriptor;

/// A message: who sent it, and what it holds in the order sent. What is kept as sent are spans of its datagram, and its
/// lists lie in an arena. Both live as long as `'a`.
pub struct Message<'a> {
    /// The sender's mId, byte for byte.
    pub mid: Sender<'a>,
    /// What the body holds; nothing where it is an error.
    pub items: Listed<'a, Item<'a>>,
}

// By hand, so that a function that lets a message go does so by one call. A derived one would stand in it field by
// field.
impl Drop for Message<'_> {
    fn drop(self) {
        let Message { mid: _, items: _ } = self;
    }
}

/// One part of a message's body.
#[derive(Drop)]
pub enum Item<'a> {
    /// A transaction to be executed.
    Request(RequestSource<'a>),
    /// Replies that have arrived, by the numbers of their transactions.
    Ack(Listed<'a, AckRange>),
    /// A reply, or that one is pending: read, and of no effect.
    Ignored,
}

/// Transactions whose replies have arrived (RFC 3525, Annex D.1): the numbers from the first to the last, both among
/// them. The two are equal where one number stands alone.
#[derive(Clone, Copy, PartialEq, Eq)]
pub struct AckRange {
    /// The first number. It may be above the last.
    pub first: u32,
    /// The last number.
    pub last: u32,
}

/// A transaction request (RFC 3525, section 8.2.1).
#[derive(Drop)]
pub struct Request<'a> {
    /// The number that its reply repeats.
    pub id: TxId,
    /// The actions in the order sent, one or more.
    pub actions: Listed<'a, Action<'a>>,
}

/// An action: what is requested of one context (RFC 3525, section 8 and Annex B.2, `actionRequest`).
#[derive(Drop)]
pub struct Action<'a> {
    /// The context that the commands are for (section 8.1.2).
    pub ctx: CtxRef,
    /// The context properties and ContextAudits in the order sent, which stand in front of the commands.
    pub props: Listed<'a, ContextProp<'a>>,
    /// The commands in the order sent.
    pub commands: Listed<'a, Command<'a>>,
}

/// What an action requests of its context itself (RFC 3525, section 8.1.2 and Annex B.2, `contextProperty` and
/// `contextAudit`).
#[derive(Drop)]
pub enum ContextProp<'a> {
    /// `Priority`: the priority that the context gets.
    Priority(u16),
    /// `Emergency`: the context is an emergency.
    Emergency,
    /// `Topology`: how media flow between its terminations, two at a time in the order sent, at least once.
    Topology(Listed<'a, Triple>),
    /// `ContextAudit`: which of its properties are written, in the order sent, one or more.
    ContextAudit(Listed<'a, ContextItem>),
}

/// How media flow between two terminations (RFC 3525, section 7.1.18 and Annex B.2, `topologyTriple`). What is sent may
/// be a wildcard.
#[derive(Clone, Copy)]
pub struct Triple {
    /// The first termination.
    pub a: TermRef,
    /// The second.
    pub b: TermRef,
    /// How media flow between them.
    pub flow: Flow,
}

/// A property of a context that a ContextAudit may ask for (RFC 3525, Annex B.2, `contextAuditProperties`).
#[derive(Clone, Copy, Debug)]
pub enum ContextItem {
    /// How media flow between its terminations.
    Topology,
    /// Its priority.
    Priority,
    /// Whether it is an emergency.
    Emergency,
}

/// A command (RFC 3525, section 7.2).
#[derive(Drop)]
pub struct Command<'a> {
    /// What is to be done.
    pub verb: Verb,
    /// What it is to be done to.
    pub term: TermRef,
    /// `O-`: its failure does not stop the transaction.
    pub optional: bool,
    /// `W-`: one reply for all that a wildcard matches.
    pub wild: bool,
    /// Its descriptors in the order sent; none for AuditCapability and Notify, of which they are read and dropped.
    pub descriptors: Listed<'a, Descriptor<'a>>,
}
