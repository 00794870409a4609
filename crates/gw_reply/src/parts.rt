//! The parts of a command reply (RFC 3525, sections 7.1 and 7.2.5): what was filled, and what was audited.

use gw_base::{Items, Service};
use gw_desc::{AuditItem, KeptKind, Mode, Property, Tail};

/// A property, its name and its value as texts of their own.
pub type KeptProperty = Property<Items<u8>>;

/// What follows the word of a descriptor that is kept as sent, as texts of their own.
pub type KeptTail = Tail<Items<u8>>;

/// The parts that answer an Audit, in the order requested.
pub type AuditReply = Items<ReplyPart>;

/// A part of a command reply.
#[derive(Drop)]
pub enum ReplyPart {
    /// A Media with the Locals in which the gateway chose a value.
    Filled(Items<FilledStream>),
    /// A Media that was audited.
    Media(MediaReply),
    /// An audited descriptor that is kept as sent.
    Kept(KeptKind, KeptTail),
    /// An audited item that has no value here: its word alone.
    Bare(AuditItem),
}

/// A stream whose Local was filled.
#[derive(Drop)]
pub struct FilledStream {
    /// Its number, 1 to 4.
    pub number: u8,
    /// Its Local as it was filled.
    pub local: Items<u8>,
}

/// What a termination keeps of its media.
pub struct MediaReply {
    /// Its service state.
    pub service: Service,
    /// The properties of its TerminationState.
    pub properties: Items<KeptProperty>,
    /// Its streams, in rising order of their numbers.
    pub streams: Items<StreamReply>,
}

// By hand: a function that drops media then has one call, where a derived impl would be inlined field by field.
impl Drop for MediaReply {
    fn drop(self) {
        let MediaReply {
            service: _,
            properties: _,
            streams: _,
        } = self;
    }
}

/// What a termination keeps of a stream.
#[derive(Drop)]
pub struct StreamReply {
    /// Its number, 1 to 4.
    pub number: u8,
    /// Its mode.
    pub mode: Mode,
    /// The properties of its LocalControl.
    pub properties: Items<KeptProperty>,
    /// Its Local, if there is one.
    pub local: Option<Items<u8>>,
    /// Its Remote, if there is one.
    pub remote: Option<Items<u8>>,
}
