//! The text of the parts of command replies.

ghost use Rattle.std.specs.Prelude.{◌≡◌, ◌∷◌, ◌++◌, OnOk, codes};
ghost use Rattle.gw_desc.specs.Grammar.{sign_byte};
ghost use Rattle.gw_reply.specs.Lists.{later};
ghost use Rattle.gw_reply.specs.Parts.{mode_word, service_word, kind_word, item_word, text_if, later_octets, control_text, state_text, part_text, stream_parts, property_text};
ghost use Rattle.gw_reply.specs.declared.parts.ReplyPart.TheVariants.{Filled};

use crate::parts::{FilledStream, KeptProperty, KeptTail, MediaReply, ReplyPart, StreamReply};
use crate::wire::{Written, write_opening, write_parts};
use gw_base::{Items, Service};
use gw_desc::{AuditItem, KeptKind, Mode, Property, Sign, Tail};
use std::alloc::AllocError;

fn mode_word(mode: Mode) -> &'static str
    ensures { result.now ≡ mode_word mode }
{
    match mode {
        Mode::SendOnly => "SendOnly",
        Mode::ReceiveOnly => "ReceiveOnly",
        Mode::SendReceive => "SendReceive",
        Mode::Inactive => "Inactive",
        Mode::Loopback => "Loopback",
    }
}

fn service_word(service: Service) -> &'static str
    ensures { result.now ≡ service_word service }
{
    match service {
        Service::Test => "Test",
        Service::OutOfService => "OutOfService",
        Service::InService => "InService",
    }
}

fn kind_word(kind: KeptKind) -> &'static str
    ensures { result.now ≡ kind_word kind }
{
    match kind {
        KeptKind::Events => "Events",
        KeptKind::Signals => "Signals",
        KeptKind::DigitMap => "DigitMap",
        KeptKind::EventBuffer => "EventBuffer",
    }
}

fn item_word(item: AuditItem) -> &'static str
    ensures { result.now ≡ item_word item }
{
    match item {
        AuditItem::Media => "Media",
        AuditItem::Kept(kind) => kind_word(kind),
        AuditItem::Statistics => "Statistics",
        AuditItem::ObservedEvents => "ObservedEvents",
        AuditItem::Packages => "Packages",
    }
}

fn sign_byte(sign: Sign) -> u8
    ensures { result ≡ sign_byte sign }
{
    match sign {
        Sign::Equal => b'=',
        Sign::NotEqual => b'#',
        Sign::Less => b'<',
        Sign::Greater => b'>',
    }
}

impl Written for Property<Items<u8>> {
    ghost use Rattle.gw_reply.specs.Parts.{stream_parts, property_text};

    ghost text = { property_text };

    fn write_to(&self, out: &mut Vec<u8>) -> Result<(), AllocError> {
        out.extend_from_slice(self.name.as_slice())?;
        out.push(sign_byte(self.sign))?;
        out.extend_from_slice(self.value.as_slice())
    }
}

/// The text, if it is there.
fn write_if(text: &Option<Items<u8>>, out: &mut Vec<u8>) -> Result<(), AllocError>
    ensures { OnOk result (out.new.items ≡ out.old.items ++ text_if text.now) }
{
    match text {
        Some(text) => out.extend_from_slice(text.as_slice()),
        None => Ok(()),
    }
}

impl Written for Tail<Items<u8>> {
    ghost use Rattle.gw_reply.specs.Parts.{tail_text};

    ghost text = { tail_text };

    fn write_to(&self, out: &mut Vec<u8>) -> Result<(), AllocError> {
        if self.equals {
            out.push(b'=')?;
        }
        write_if(&self.word, out)?;
        write_if(&self.group, out)
    }
}

/// A comma, the word and the text in braces, if the text is there.
fn write_octets(word: &[u8], text: &Option<Items<u8>>, out: &mut Vec<u8>) -> Result<(), AllocError>
    ensures { OnOk result (out.new.items ≡ out.old.items ++ later_octets word.now text.now) }
{
    let Some(text) = text else {
        return Ok(());
    };
    out.push(b',')?;
    out.extend_from_slice(word)?;
    out.push(b'{')?;
    out.extend_from_slice(text.as_slice())?;
    out.push(b'}')?;
    Ok(())
}

/// A LocalControl.
fn write_control(
    mode: Mode,
    properties: &[KeptProperty],
    out: &mut Vec<u8>,
) -> Result<(), AllocError>
    ensures { OnOk result (out.new.items ≡ out.old.items ++ control_text mode properties.now) }
{
    out.extend_from_slice(b"LocalControl{Mode=")?;
    out.extend_from_slice(mode_word(mode).as_bytes())?;
    write_parts(true, properties, out)?;
    out.push(b'}')?;
    Ok(())
}

/// What stands between the braces of a stream.
#[tactic(auto, unfolding(crate::specs::Parts::stream_parts))]
fn write_stream(stream: &StreamReply, out: &mut Vec<u8>) -> Result<(), AllocError>
    ensures { OnOk result (out.new.items ≡ out.old.items ++ stream_parts stream.now) }
{
    write_control(stream.mode, stream.properties.as_slice(), out)?;
    write_octets(b"Local", &stream.local, out)?;
    write_octets(b"Remote", &stream.remote, out)
}

impl Written for StreamReply {
    ghost use Rattle.gw_reply.specs.Parts.{stream_text};

    ghost text = { stream_text };

    fn write_to(&self, out: &mut Vec<u8>) -> Result<(), AllocError> {
        out.extend_from_slice(b"Stream=")?;
        write_opening(u32::from(self.number), out)?;
        write_stream(self, out)?;
        out.push(b'}')?;
        Ok(())
    }
}

/// A filled Local, and the brace that closes its stream.
fn write_local(text: &[u8], out: &mut Vec<u8>) -> Result<(), AllocError>
    ensures { OnOk result (out.new.items ≡ out.old.items ++ (codes "Local{" ++ text.now ++ codes "}}")) }
{
    out.extend_from_slice(b"Local{")?;
    out.extend_from_slice(text)?;
    out.extend_from_slice(b"}}")
}

impl Written for FilledStream {
    ghost use Rattle.gw_reply.specs.Parts.{filled_stream_text};

    ghost text = { filled_stream_text };

    fn write_to(&self, out: &mut Vec<u8>) -> Result<(), AllocError> {
        out.extend_from_slice(b"Stream=")?;
        write_opening(u32::from(self.number), out)?;
        write_local(self.local.as_slice(), out)
    }
}

/// A TerminationState.
fn write_state(
    service: Service,
    properties: &[KeptProperty],
    out: &mut Vec<u8>,
) -> Result<(), AllocError>
    ensures { OnOk result (out.new.items ≡ out.old.items ++ state_text service properties.now) }
{
    out.extend_from_slice(b"TerminationState{ServiceStates=")?;
    out.extend_from_slice(service_word(service).as_bytes())?;
    write_parts(true, properties, out)?;
    out.push(b'}')?;
    Ok(())
}

impl Written for MediaReply {
    ghost use Rattle.gw_reply.specs.Parts.{media_text};

    ghost text = { media_text };

    fn write_to(&self, out: &mut Vec<u8>) -> Result<(), AllocError> {
        out.extend_from_slice(b"Media{")?;
        write_state(self.service, self.properties.as_slice(), out)?;
        write_parts(true, self.streams.as_slice(), out)?;
        out.push(b'}')?;
        Ok(())
    }
}

/// The streams that were filled, alone in a Media.
fn write_filled(streams: &[FilledStream], out: &mut Vec<u8>) -> Result<(), AllocError>
    ensures { OnOk result (out.new.items ≡ out.old.items ++ part_text (Filled streams.now)) }
{
    out.extend_from_slice(b"Media{")?;
    write_parts(false, streams, out)?;
    out.push(b'}')?;
    Ok(())
}

impl Written for ReplyPart {
    ghost use Rattle.gw_reply.specs.Parts.{part_text};

    ghost text = { part_text };

    fn write_to(&self, out: &mut Vec<u8>) -> Result<(), AllocError> {
        match self {
            ReplyPart::Filled(streams) => write_filled(streams.as_slice(), out),
            ReplyPart::Media(media) => media.write_to(out),
            ReplyPart::Kept(kind, tail) => {
                out.extend_from_slice(kind_word(*kind).as_bytes())?;
                tail.write_to(out)
            }
            ReplyPart::Bare(item) => out.extend_from_slice(item_word(*item).as_bytes()),
        }
    }
}
