//! The tree of a descriptor (RFC 3525, section 7.1 and Annex B.2), as it is read: what is kept is kept as sent.

use gw_base::{Listed, Span};

/// The words of an Audit, in the order sent.
pub type AuditItems<'a> = Listed<'a, Span<'a>>;

/// A descriptor of a command, of a datagram that lives as long as `'a`.
#[derive(Drop)]
pub enum Descriptor<'a> {
    /// `Media`: its parts in the order sent, one or more.
    Media(Listed<'a, MediaPart<'a>>),
    /// `Events`, `Signals`, `DigitMap` or `EventBuffer`: kept and audited, and not looked into.
    Keep(KeptKind, Tail<Span<'a>>),
    /// `Audit`: its words, perhaps none.
    Audit(AuditItems<'a>),
    /// `Services`: its parameters in the order sent, one or more.
    Services(Listed<'a, ServiceParm<'a>>),
    /// Any other word; what follows it is read and dropped.
    Other(Span<'a>),
}

/// Which descriptor is kept as sent.
#[derive(Clone, Copy)]
pub enum KeptKind {
    /// `Events` (RFC 3525, section 7.1.9): which events are to be reported.
    Events,
    /// `Signals` (section 7.1.11): what is to be played.
    Signals,
    /// `DigitMap` (section 7.1.14): which digits are to be collected.
    DigitMap,
    /// `EventBuffer` (section 7.1.10): which events are kept for later.
    EventBuffer,
}

/// A part of a Media descriptor (RFC 3525, section 7.1.4).
#[derive(Drop)]
pub enum MediaPart<'a> {
    /// A stream part outside a Stream, which is of stream 1.
    Outside(StreamPart<'a>),
    /// `Stream`: its number, at most 65,535, and its parts, at least one.
    Stream(u16, Listed<'a, StreamPart<'a>>),
    /// `TerminationState`: its properties, at least one.
    TerminationState(Listed<'a, Property<Span<'a>>>),
}

/// A part of a stream (RFC 3525, sections 7.1.6 to 7.1.8).
#[derive(Drop)]
pub enum StreamPart<'a> {
    /// `Local`: the octets between its braces, without the white space round them.
    Local(Span<'a>),
    /// `Remote`: the same.
    Remote(Span<'a>),
    /// `LocalControl`: its properties, at least one.
    LocalControl(Listed<'a, Property<Span<'a>>>),
}

/// A property: its name, the sign behind it and its value, as sent. A message has them as spans of its datagram; what
/// keeps a property has them as texts of its own.
#[derive(Drop)]
pub struct Property<T> {
    /// A word.
    pub name: T,
    /// The sign between name and value.
    pub sign: Sign,
    /// A quoted text, a word, a bracket or a group, with its quotation marks, brackets or braces.
    pub value: T,
}

/// What stands between a property's name and its value.
#[derive(Clone, Copy)]
pub enum Sign {
    /// `=`
    Equal,
    /// `#`
    NotEqual,
    /// `<`
    Less,
    /// `>`
    Greater,
}

/// What follows the word of a descriptor that is kept as sent. Where `equals` holds a word or a group stands behind it.
/// A message has it as spans of its datagram; what keeps a tail has it as texts of its own.
#[derive(Drop)]
pub struct Tail<T> {
    /// Whether `=` stands behind the descriptor's word.
    pub equals: bool,
    /// The word behind `=`.
    pub word: Option<T>,
    /// The group, its braces included.
    pub group: Option<T>,
}

/// A parameter of a Services descriptor (RFC 3525, sections 7.1.13 and 7.2.8; Annex B.2, `serviceChangeParm`).
#[derive(Drop)]
pub struct ServiceParm<'a> {
    /// A word.
    pub name: Span<'a>,
    /// What stands behind `=`.
    pub value: Option<ServiceValue<'a>>,
}

/// The value of a Services parameter.
#[derive(Drop)]
pub enum ServiceValue<'a> {
    /// A quoted text, its quotation marks included.
    Quoted(Span<'a>),
    /// A run of safe bytes and `[ ] : < > #`.
    Run(Span<'a>),
}
